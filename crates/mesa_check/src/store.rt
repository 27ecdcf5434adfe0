// A store checked.
ghost use Rattle.std.specs.Prelude.{◌≡◌, ℕ, IfOk, None, Some};
ghost use Rattle.std.specs.List.{AllByRecursion};
ghost use Rattle.mesa_disk.specs.Image.{Image};
ghost use Rattle.mesa_disk.specs.Story.{Unmoved};
ghost use Rattle.mesa_store_spec.specs.Fitting.{live_files};
ghost use Rattle.mesa_store_spec.specs.Shape.{IsCatalog};
ghost use Rattle.mesa_recover.specs.Opened.{IsOpened};
ghost use Rattle.mesa_compare.specs.mesa_open_files.Opening.{Counted};
ghost use Rattle.mesa_compare.specs.mesa_examine.Examined.{is_read_failure};
ghost use Rattle.mesa_check.specs.Found.{AreFound, Found};
ghost use Rattle.mesa_check.specs.Faults.{first_fault};
ghost use Rattle.mesa_check.specs.Verdict.{IsFirstFault, fault_told};
ghost use Rattle.mesa_catalog_table.specs.Meaning.{meta_of};
ghost use Rattle.mesa_check.specs.Shown.{shown_fault};
ghost use Rattle.mesa_check.specs.Tested.{HasRows};

use crate::faults::{Shown, table_fault};
use crate::{Verdict, sound_where_no_fault};
use mesa_catalog::Catalog;
use mesa_catalog_table::Table;
use mesa_compare::{CheckError, DeltaDisk};
use mesa_disk::Made;
use mesa_recover::Opened;
use mesa_schema::TryCopy;
use mesa_store_spec::{catalogs_are_shaped, catalogs_own_ids};
use std::alloc::{AllocError, Global};

/// Whether a store that was read is sound, and else its first fault. Each file that the catalogue names is read once, and once more for each comparison that it is in: a singleton's with one cumulative, a cumulative's with its singletons and with the next cumulative, and a table's file with each of its views'. A block of each file that is open is held, and of a view's file the groups of its table's rows. Nothing is written.
pub fn check<M: Made, D: DeltaDisk<M>>(
    alloc: Global,
    opened: &mut Opened<D>,
) -> Result<Verdict, CheckError>
    requires { IsOpened (D.story opened.old.disk) opened.old }
    ensures verdict { IfOk result (λ v. IsFirstFault (D.story opened.old.disk) opened.old.catalog.catalogue (fault_told v)) }
    ensures rest { opened.new ≡ record opened.old { disk = opened.new.disk } }
    ensures unmoved { Unmoved (D.story opened.old.disk) (D.story opened.new.disk) }
    ensures counted { Counted (D.story opened.old.disk) (D.story opened.new.disk) (is_read_failure result) }
{
    catalogs_are_shaped();
    catalogs_own_ids();
    sound_where_no_fault();
    check_tables(alloc, &mut opened.disk, &opened.catalog)
}

// Table by table, up to the first that has a fault.
fn check_tables<M: Made, D: DeltaDisk<M>>(
    alloc: Global,
    disk: &mut D,
    catalog: &Catalog,
) -> Result<Verdict, CheckError>
    requires { IsCatalog catalog.now.catalogue }
    ensures first { IfOk result (λ v. (i : Image) (found : Found) → (D.story disk.old).told ≡ Some i → AreFound i found (live_files catalog.now.catalogue) → first_fault found catalog.now.catalogue ≡ fault_told v) }
    ensures there { IfOk result (λ v. fault_told v ≡ None → (i : Image) → (D.story disk.old).told ≡ Some i → AllByRecursion (HasRows i) (live_files catalog.now.catalogue)) }
    ensures unmoved { Unmoved (D.story disk.old) (D.story disk.new) }
    ensures counted { Counted (D.story disk.old) (D.story disk.new) (is_read_failure result) }
{
    'metas: for number in 0..catalog.tables() {
        let table = catalog.table(number);
        if let Some(shown) = table_fault(alloc, disk, table)? {
            return Ok(unsound(table, shown)?);
        }
    }
    Ok(Verdict::Sound)
}

// What is told of a table's fault.
fn unsound(table: &Table, shown: Shown) -> Result<Verdict, AllocError>
    ensures { IfOk result (λ v. (next : ℕ) → fault_told v ≡ Some (shown_fault (meta_of next table.now) shown)) }
{
    let name = table.name.copy()?;
    Ok(Verdict::Unsound {
        table: name,
        from: shown.from,
        to: shown.to,
        key: shown.key,
    })
}
