// Tables and views found by their names.
ghost use Rattle.std.specs.Prelude.{◌≡◌, ◌<◌, ℕ, List, length, map, find, position, slice_get, option_and_then, option_map, IfSome};
ghost use Rattle.mesa_list.specs.Bytes.{same_bytes};
ghost use Rattle.mesa_answer.specs.mesa_columns.declared.views.View.{View};
ghost use Rattle.mesa_answer.specs.mesa_columns.Columns.{place_of};
ghost use Rattle.mesa_batch.specs.Numbers.{known_of};
ghost use Rattle.mesa_model.specs.Relations.{relation_from};
ghost use Rattle.mesa_oracle_tables.specs.Kept.{Contents, From, tables_in};
ghost use Rattle.mesa_oracle_tables.specs.Found.{relation_at, view_named};

use mesa_batch::Glanced;
use mesa_schema::Evolving;

/// Where a relation stands: a table by its number, or one of its views.
#[derive(Clone, Copy, Debug, PartialEq, Eq)]
pub struct Place {
    pub table: usize,
    pub view: Option<u8>,
}

// The number of the table of a name.
pub(crate) fn table_place(name: &[u8], tables: &[Glanced]) -> Option<usize>
    ensures within { IfSome result (λ i. i < length tables.now) }
    ensures place { result ≡ place_of name.now (map (λ t. t.name) tables.now) }
{
    first_named(name, tables)
}

fn first_named(name: &[u8], tables: &[Glanced]) -> Option<usize>
    ensures within { IfSome result (λ i. i < length tables.now) }
    ensures place { result ≡ position (λ t. same_bytes name.now t.name) tables.now }
{
    tables.iter().position(|table| name == table.name.bytes())
}

// The number of a table's view of a name.
fn view_place(name: &[u8], evolving: &Evolving) -> Option<u8>
    ensures within { IfSome result (λ i. i < length evolving.now.views) }
    ensures place { option_and_then (slice_get evolving.now.views) result ≡ view_named name.now evolving.now.views }
{
    'views: for view in 0..evolving.views() {
        if name == evolving.view_name(view).bytes() {
            return Some(view);
        }
    }
    None
}

// Where the relation of a name stands: the tables are looked through in order, each before its views.
pub(crate) fn relation_place(name: &[u8], tables: &[Glanced]) -> Option<Place>
    ensures found { (from : From) (totals : List (List ℕ)) (versions : List Contents) → relation_from 0 name.now (tables_in from 0 totals versions (map known_of tables.now)) ≡ option_map (relation_at from totals versions (map known_of tables.now)) result }
    ensures within { IfSome result (λ place. place.table < length tables.now) }
    ensures view_within { IfSome result (λ place. IfSome place.view (λ view. IfSome (slice_get tables.now place.table) (λ table. view < length table.evolving.value.views))) }
{
    'tables: for (number, table) in tables.iter().enumerate() {
        if name == table.name.bytes() {
            return Some(Place {
                table: number,
                view: None,
            });
        }
        if let Some(view) = view_place(name, &table.evolving) {
            return Some(Place {
                table: number,
                view: Some(view),
            });
        }
    }
    None
}
