// The bound of the sums.
ghost use Rattle.std.specs.Prelude.{◌≡◌, ◌<◌, length, Ok, IfErr, OnOk};
ghost use Rattle.mesa_pick_files.specs.mesa_schema.Changes.{columns_of};
ghost use Rattle.mesa_columns.specs.Columns.{aggs_of};
ghost use Rattle.mesa_batch.specs.Totals.{sums_in};
ghost use Rattle.mesa_engine.specs.mesa_store_spec.Catalog.{meta_at};
ghost use Rattle.mesa_engine.specs.mesa_store_spec.Shape.{IsCatalog};
ghost use Rattle.mesa_file_records.specs.Adopted.{ArePartsOf};
ghost use Rattle.mesa_file_records.specs.Bounds.{IsDue, parts_checked, totals_checked};

use crate::Unpublished;
use mesa_batch::{fits, sum_column};
use mesa_catalog::Catalog;
use mesa_columns::Totals;
use mesa_disk::Made;
use mesa_list::TryCopy;
use mesa_model::Refusal;
use mesa_open_files::PreparedPart;

// Refuses a batch with which a sum column would pass its bound: the first, by the tables' numbers.
pub(crate) fn check_bounds<M: Made>(
    catalog: &Catalog,
    parts: &[PreparedPart<M>],
) -> Result<(), Unpublished>
    requires shaped { IsCatalog catalog.now.catalogue }
    requires parts { ArePartsOf catalog.now.catalogue parts.now }
    ensures checked { OnOk result (parts_checked catalog.now.catalogue parts.now ≡ Ok tt) }
    ensures refused { IfErr result (IsDue (parts_checked catalog.now.catalogue parts.now)) }
{
    'parts: for part in parts {
        check_totals(catalog, part.table, &part.totals)?;
    }
    Ok(())
}

// Refuses these totals where a sum column of the table would pass its bound with them.
fn check_totals(catalog: &Catalog, table: u16, totals: &Totals) -> Result<(), Unpublished>
    requires shaped { IsCatalog catalog.now.catalogue }
    requires there { table < length catalog.now.catalogue.tables }
    requires count { length totals.now ≡ sums_in (aggs_of (columns_of (meta_at catalog.now.catalogue table).lineage)) }
    ensures checked { OnOk result (totals_checked (meta_at catalog.now.catalogue table) totals.now ≡ Ok tt) }
    ensures refused { IfErr result (IsDue (totals_checked (meta_at catalog.now.catalogue table) totals.now)) }
{
    match fits(catalog.totals(table), totals) {
        Ok(()) => Ok(()),
        Err(place) => {
            let schema = catalog.evolving(table).present();
            Err(Unpublished::Refused(Refusal::SumBound {
                table: catalog.name(table).copy()?,
                column: sum_column(schema, place as usize).copy()?,
            }))
        }
    }
}
