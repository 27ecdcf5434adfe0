// What a difference says of two lists of rows.
ghost use Rattle.std.specs.Prelude.{◌≡◌, List, None, IsTrue};
ghost use Rattle.mesa_schema.specs.mesa_columns.declared.rows.Row.{Row as AnyRow};
ghost use Rattle.mesa_schema.specs.mesa_columns.Rows.{keys_rise};
ghost use Rattle.mesa_compare.specs.Difference.{first_difference};

/// Lists whose keys rise differ nowhere exactly where they are the same.
pub fn same_rows_differ_nowhere()
    ensures same { (rows : List AnyRow) → first_difference rows rows ≡ None }
    ensures none { (rows others : List AnyRow) → IsTrue (keys_rise rows) → IsTrue (keys_rise others) → first_difference rows others ≡ None → rows ≡ others }
{}
