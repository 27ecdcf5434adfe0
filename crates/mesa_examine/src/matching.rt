// Whether a reference tells the rows that were read.
ghost use Rattle.std.specs.Prelude.{◌≡◌, ◌↔◌, List, IsTrue};
ghost use Rattle.mesa_open_files.specs.mesa_columns.declared.rows.Row.{Row as AnyRow};
ghost use Rattle.mesa_open_files.specs.mesa_columns.Columns.{Columns};
ghost use Rattle.mesa_examine.specs.Tallies.{AreEnds, IsToldOf};

use crate::aggregate::Aggregate;
use crate::tally::Ends;
use mesa_disk::FileRef;
use mesa_schema::Amount;

impl Ends {
    /// Whether a reference tells the count, the first and last key and the aggregates of these rows.
    pub fn are_of(&self, file: &FileRef) -> bool
        ensures { (s : Columns) (rows : List AnyRow) → AreEnds s self.now rows → IsTrue result ↔ IsToldOf s rows file.now }
    {
        file.rows == self.rows
            && file.first.as_slice() == self.first.as_slice()
            && file.last.as_slice() == self.last.as_slice()
            && are_same(file.aggregates.as_slice(), &self.aggregates)
    }
}

// Whether the numbers are the same.
fn are_same(recorded: &[Amount], found: &[Aggregate]) -> bool
    ensures { IsTrue result ↔ (recorded.now ≡ found.now) }
{
    if recorded.len() != found.len() {
        return false;
    }
    for i in 0..found.len() {
        if !found[i].is(recorded[i]) {
            return false;
        }
    }
    true
}
