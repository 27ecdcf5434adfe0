// What holds of every block, whichever function wrote or read it.
ghost use Rattle.std.specs.Prelude.{◌≡◌, ◌+◌, List, [], ◌∷◌, ◌++◌, length, Ok, IsTrue, true};
ghost use Rattle.std.specs.List.{AllByRecursion};
ghost use Rattle.mesa_columns.specs.declared.rows.Row.{Row as AnyRow};
ghost use Rattle.mesa_block.specs.Layout.{Layout, values_size, widths_of};
ghost use Rattle.mesa_columns.specs.Schema.{is_schema};
ghost use Rattle.mesa_block.specs.Fill.{fit};
ghost use Rattle.mesa_block.specs.Reading.{block_at};
ghost use Rattle.mesa_block.specs.Rows.{AreRows, IsRow};
ghost use Rattle.mesa_block.specs.Spelling.{block};

use mesa_columns::reads_back;

/// The rows of a block are read again from its bytes.
pub fn reads_blocks()
    ensures { (s : Layout) (rows : List AnyRow) → AreRows s rows → block_at s (block s rows) ≡ Ok rows }
{
    reads_back();
}

/// A row fits in an empty block, so every list of rows makes blocks: under a schema no key is longer than 16 texts, and no row has more than 16 values.
pub fn fits_alone()
    ensures { (s : Layout) (row : AnyRow) → IsTrue (is_schema s.columns) → IsRow s row → fit s (row ∷ []) ≡ true }
{
    reads_back();
}

/// With one row more a block is longer by the row's key and its values: a cell takes as many bytes in a block as in its key.
pub fn grows_by_rows()
    ensures { (s : Layout) (rows : List AnyRow) (row : AnyRow) → AllByRecursion (IsRow s) rows → IsRow s row
        → length (block s (rows ++ row ∷ [])) ≡ length (block s rows) + (length row.key + values_size (widths_of s)) }
{
    reads_back();
}
