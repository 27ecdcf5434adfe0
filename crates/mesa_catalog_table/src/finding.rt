// Looking names up. There are few views of a table, so that one look at each name is fast.
ghost use Rattle.std.specs.Prelude.{◌≡◌, ℕ};
ghost use Rattle.mesa_store_spec.specs.mesa_columns.Columns.{place_of};
ghost use Rattle.mesa_catalog_table.specs.Lookups.{relation_in, view_names};
ghost use Rattle.mesa_catalog_table.specs.Meaning.{meta_of};

use crate::{Relation, Table};
use mesa_schema::{Evolving, Name};

impl Table {
    /// The table, which has this number, or the view of it that has the name.
    pub fn relation(&self, number: u16, name: &Name) -> Option<Relation>
        ensures { (next : ℕ) → result ≡ relation_in number name.now (meta_of next self.now) }
    {
        if name.bytes() == self.name.bytes() {
            return Some(Relation {
                table: number,
                view: None,
            });
        }
        let view = view_place(&self.evolving, name)?;
        Some(Relation {
            table: number,
            view: Some(view),
        })
    }
}

// The number of the view of a name.
fn view_place(evolving: &Evolving, name: &Name) -> Option<u8>
    ensures { result ≡ place_of name.now (view_names evolving.now) }
{
    for view in 0..evolving.views() {
        if name.bytes() == evolving.view_name(view).bytes() {
            return Some(view);
        }
    }
    None
}
