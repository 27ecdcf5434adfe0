// What holds of every file, whichever function wrote or read it.
ghost use Rattle.std.specs.Prelude.{◌≡◌, ◌<◌, ◌^◌, ℕ, List, [], ◌∷◌, ◌++◌, length, map, IsTrue};
ghost use Rattle.std.specs.declared.cmp.Ordering.TheVariants.{Less};
ghost use Rattle.mesa_block.specs.mesa_value.declared.Agg.{Agg as AnyAgg};
ghost use Rattle.mesa_block.specs.mesa_key.Order.{byte_cmp};
ghost use Rattle.mesa_columns.specs.declared.rows.Row.{Row as AnyRow};
ghost use Rattle.mesa_block.specs.Layout.{Layout};
ghost use Rattle.mesa_fold.specs.Folded.{all_combined, row_combined};
ghost use Rattle.mesa_columns.specs.Schema.{is_schema};
ghost use Rattle.mesa_block.specs.Rows.{Rise};
ghost use Rattle.mesa_block.specs.Spelling.{key_of};
ghost use Rattle.mesa_delta_format.specs.Beginning.{BeginsBefore, KeysBetween};
ghost use Rattle.mesa_delta_format.specs.File.{IsFile};
ghost use Rattle.mesa_delta_format.specs.Spread.{blocks_of};
ghost use Rattle.mesa_delta_format.specs.Summary.{last_key, values_of};

use mesa_block::{fits_alone, reads_blocks};

/// A search begins at or before the first block that holds a key at least the one that is looked for.
pub fn begins_before()
    ensures { BeginsBefore }
{}

/// The rows of each block lie between the short key of its first key and that of the next block's, or of the file's last key.
pub fn keys_between()
    ensures { KeysBetween }
{
    fits_alone();
}

/// Two files of as many blocks with the same bytes have the same rows.
pub fn one_file()
    ensures { (s : Layout) (rows others : List AnyRow) (bytes : List ℕ) → IsTrue (is_schema s.columns) → length bytes < 2 ^ 64 → IsFile s rows bytes → IsFile s others bytes
        → length (blocks_of s rows) ≡ length (blocks_of s others) → rows ≡ others }
{
    fits_alone();
    reads_blocks();
}

/// What one row more does to the last key, the order and the combined values of rows.
pub fn one_row_more()
    ensures last { (rows : List AnyRow) (row : AnyRow) → last_key (rows ++ row ∷ []) ≡ row.key }
    ensures rises { (rows : List AnyRow) (row : AnyRow) → 0 < length rows → Rise (map key_of rows) → byte_cmp (last_key rows) row.key ≡ Less → Rise (map key_of (rows ++ row ∷ [])) }
    ensures combined { (aggs : List AnyAgg) (rows : List AnyRow) (row : AnyRow) → 0 < length rows
        → all_combined aggs (map values_of (rows ++ row ∷ [])) ≡ row_combined aggs (all_combined aggs (map values_of rows)) row.values }
{}
