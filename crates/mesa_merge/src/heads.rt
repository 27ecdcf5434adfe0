// The row at hand of an input, and a row that is being combined.
ghost use Rattle.std.specs.Prelude.{◌≡◌, ◌∷◌, List, OnOk, length};
ghost use Rattle.std.specs.Bool.{OnFalse, OnTrue};
ghost use Rattle.mesa_scan.specs.mesa_columns.declared.rows.Row.{Row as AnyRow};
ghost use Rattle.mesa_scan.specs.mesa_fold.Folded.{AllCombine, row_combined};
ghost use Rattle.mesa_scan.specs.Cursors.{at_hand};

use mesa_batch::{combine_into, combines_all};
use mesa_scan::Cursor;
use mesa_schema::Row;
use mesa_value::Agg;
use std::alloc::AllocError;

// Copies the row at hand into a row, in the room that it has.
pub(crate) fn take_head(cursor: &Cursor, row: &mut Row) -> Result<(), AllocError>
    requires { (head : AnyRow) × (rows : List AnyRow) × (at_hand cursor.now ≡ head ∷ rows) }
    ensures { OnOk result ((rows : List AnyRow) × (at_hand cursor.now ≡ row.new ∷ rows)) }
{
    let Some(head) = cursor.head() else {
        unreachable!()
    };
    row.fill(head)
}

// Combines the row at hand with an older one, where no sum leaves its type; else the older one stays as it is.
pub(crate) fn combine_head(cursor: &Cursor, aggs: &[Agg], row: &mut Row) -> bool
    requires old_full { length row.old.values ≡ length aggs.now }
    requires new_full { (head : AnyRow) × (rows : List AnyRow) × (at_hand cursor.now ≡ head ∷ rows) × (length head.values ≡ length aggs.now) }
    ensures yes { OnTrue result ((head : AnyRow) (rows : List AnyRow) → at_hand cursor.now ≡ head ∷ rows → AllCombine aggs.now row.old.values head.values × (row.new ≡ record row.old { values = row_combined aggs.now row.old.values head.values })) }
    ensures no { OnFalse result ((row.new ≡ row.old) × ((head : AnyRow) (rows : List AnyRow) → at_hand cursor.now ≡ head ∷ rows → AllCombine aggs.now row.old.values head.values → ⊥)) }
{
    let Some(head) = cursor.head() else {
        unreachable!()
    };
    if !combines_all(aggs, row.values.as_slice(), head.values) {
        return false;
    }
    combine_into(aggs, &mut row.values, head.values);
    true
}
