// Taking in what a batch brings.
ghost use Rattle.std.specs.Prelude.{◌≡◌, ◌+◌, option_map, IfSome};
ghost use Rattle.mesa_catalog_table.specs.mesa_store_spec.Catalog.{meta_loaded};
ghost use Rattle.mesa_catalog_table.specs.Meaning.{IsTable, meta_of};
ghost use Rattle.mesa_catalog_table.specs.Room.{HasSpare};
ghost use Rattle.mesa_table_records.specs.Readied.{IsPartOf, part_in};

use crate::ReadyPart;
use mesa_catalog_table::{Loaded, Table};

/// Puts what a version brings into a table, if anything.
pub fn load_part(table: &mut Table, version: u32, part: Option<ReadyPart>)
    requires table { IsTable version table.old }
    requires spare { HasSpare table.old }
    requires part { IfSome part (IsPartOf table.old) }
    ensures loaded { meta_of (version + 1) table.new ≡ meta_loaded (meta_of version table.old) (option_map part_in part) }
    ensures table { IsTable (version + 1) table.new }
{
    if let Some(part) = part {
        table.totals = part.totals;
        table.loaded.push_reserved(Loaded {
            version,
            delta: part.delta,
        });
    }
}
