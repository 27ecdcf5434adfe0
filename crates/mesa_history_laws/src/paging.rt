// Laws of pages.
ghost use Rattle.std.specs.Prelude.{◌≡◌, ℕ, ◌<◌, ◌++◌, List, [], drop, length, Option, Some, None, Ok, nat_lt, IsTrue};
ghost use Rattle.std.specs.List.{AllByRecursion, list_all};
ghost use Rattle.mesa_history_spec.specs.mesa_filter.Asked.{Asked};
ghost use Rattle.mesa_history_spec.specs.mesa_filter.declared.words.QueryWords.{QueryWords};
ghost use Rattle.mesa_history_spec.specs.mesa_filter.declared.words.VersionWord.TheVariants as asks;
ghost use Rattle.mesa_history_spec.specs.Run.{Run, State};
ghost use Rattle.mesa_history_laws.specs.Later.{IsLaterPlace};
ghost use Rattle.mesa_history_laws.specs.Given.{warehouse_after};
ghost use Rattle.mesa_history_laws.specs.Pages.{ArePagesOf, Asking, IsWholeAnswer, from_first, pages_asked, pages_asked_at, pages_from, rows_left, rows_of_pages};
ghost use Rattle.mesa_history_spec.specs.mesa_model.declared.commands.Script.{Script};
ghost use Rattle.mesa_history_spec.specs.mesa_model.declared.entries.Entry.{Entry};
ghost use Rattle.mesa_history_spec.specs.mesa_model.Page.{page_of, rows_after};
ghost use Rattle.mesa_history_spec.specs.mesa_model.Query.{Answer, answer_rows, query_answer};
ghost use Rattle.mesa_history_spec.specs.mesa_model.Warehouse.{Warehouse};
ghost use Rattle.mesa_history_spec.specs.mesa_columns.Rows.{keys_rise};
ghost use Rattle.mesa_history_spec.specs.mesa_model.WellFormed.{IsWellFormed};
ghost use Rattle.mesa_history_spec.specs.mesa_columns.Columns.{Columns};
ghost use Rattle.mesa_history_spec.specs.mesa_columns.declared.rows.Row.{Row};

/// Pages of one answer, each asked for after the resume key of the page before it, are consecutive
/// parts of the answer's rows, and no row comes twice. A limit of 0 would skip a row whose key has
/// no columns: the script's grammar has none.
pub fn pages_chain()
    ensures answers_rise { (s : Columns) (asked : Asked) (rows : List Row) → IsTrue (keys_rise (answer_rows s asked rows)) }
    ensures goes_on { (version limit : ℕ) (resume : Option (List ℕ)) (rows : List Row) (key : List ℕ) → IsTrue (keys_rise rows) → 0 < limit → (page_of version limit resume rows).resume ≡ Some key → rows_after (Some key) rows ≡ drop limit (rows_after resume rows) }
    ensures consecutive { (version : ℕ) (rows : List Row) (limits : List ℕ) → IsTrue (keys_rise rows) → IsTrue (list_all (nat_lt 0) limits) → rows_of_pages (pages_from version rows None limits) ++ rows_left rows (pages_from version rows None limits) ≡ rows }
    ensures once { (version : ℕ) (rows : List Row) (limits : List ℕ) → IsTrue (keys_rise rows) → IsTrue (list_all (nat_lt 0) limits) → IsTrue (keys_rise (rows_of_pages (pages_from version rows None limits))) }
{}

/// A query that is answered has a whole answer, and asked again and again with the resume key that
/// was printed it gets that answer page by page, and nothing that is asked in between is refused: in
/// one state at any version, also by a pin, and for a version by its number at any moments of a run
/// and by any sessions, while the version can be queried and the epoch of the table is the same.
pub fn queries_go_on()
    ensures whole { (w : Warehouse) (session : ℕ) (words : QueryWords) (limit : ℕ) (first : Answer) → query_answer w session (from_first words limit) ≡ Ok first → (whole : Answer) × IsWholeAnswer w session words whole }
    ensures state { (script : Script) (start : State) (h : List Entry) (session : ℕ) → IsWellFormed start.warehouse → start.warehouse.pins ≡ [] → (words : QueryWords) (limit : ℕ) (whole : Answer) → 0 < limit → IsWholeAnswer (warehouse_after script start h) session words whole → (times : ℕ) → ArePagesOf whole.page.rows times (pages_asked (warehouse_after script start h) session (from_first words limit) times) }
    ensures moments { (script : Script) (r : Run) → IsWellFormed r.state.warehouse → (session : ℕ) (words : QueryWords) (version limit : ℕ) → words.version ≡ asks.At version → (whole : Answer) → 0 < limit → IsWholeAnswer r.state.warehouse session words whole → (askings : List Asking) → AllByRecursion (IsLaterPlace script r words.relation version) askings → ArePagesOf whole.page.rows (length askings) (pages_asked_at askings (from_first words limit)) }
{}
