// Laws of answers.
ghost use Rattle.std.specs.Prelude.{◌≡◌, ℕ, List, [], Some, Ok};
ghost use Rattle.mesa_history_spec.specs.mesa_filter.declared.words.QueryWords.{QueryWords};
ghost use Rattle.mesa_history_spec.specs.Replay.{runs, told_by};
ghost use Rattle.mesa_history_spec.specs.Run.{State, Told, begins};
ghost use Rattle.mesa_history_laws.specs.Answers.{IsFromItsVersion};
ghost use Rattle.mesa_history_laws.specs.Given.{warehouse_after};
ghost use Rattle.mesa_history_laws.specs.Printed.{IsPrintedFromTheFold};
ghost use Rattle.mesa_history_spec.specs.mesa_model.Query.{Answer, query_answer};
ghost use Rattle.mesa_history_spec.specs.mesa_model.WellFormed.{IsWellFormed};
ghost use Rattle.mesa_history_spec.specs.mesa_model.declared.commands.Script.{Script};
ghost use Rattle.mesa_history_spec.specs.mesa_model.declared.entries.Entry.{Entry};
ghost use Rattle.mesa_history_spec.specs.mesa_model.declared.replies.Page.{Page};
ghost use Rattle.mesa_history_spec.specs.mesa_model.declared.replies.Reply.TheVariants as reply;

/// From a well-formed start without pins and after any history, whatever a query is answered is the
/// page that it asks for of the fold of the batches accepted until then, filtered and grouped; by a
/// pin, of those accepted until the pin was given. Each page that is printed is such an answer, at
/// the position that it is printed with.
pub fn answers_from_the_fold()
    ensures answered { (script : Script) (start : State) → IsWellFormed start.warehouse → start.warehouse.pins ≡ [] → (h : List Entry) (session : ℕ) (words : QueryWords) (answer : Answer) → query_answer (warehouse_after script start h) session words ≡ Ok answer → IsFromItsVersion script start h session words answer words.version }
    ensures printed { (script : Script) (start : State) → IsWellFormed start.warehouse → start.warehouse.pins ≡ [] → (h : List Entry) (e : Entry) (told : Told) (page : Page) → told_by script (runs script (begins start) h) e ≡ Some told → told.reply ≡ reply.Page page → IsPrintedFromTheFold script start h e.session told }
{}
