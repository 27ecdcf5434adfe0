// Reading a store.
ghost use Rattle.std.specs.Prelude.{◌≡◌, List, map, OnOk, IfOk, IfErr, None, Some};
ghost use Rattle.std.specs.List.{AllByRecursion};
ghost use Rattle.mesa_store_spec.specs.mesa_file.declared.damage.Damage.{Damage as AnyDamage};
ghost use Rattle.mesa_disk.specs.Image.{Image};
ghost use Rattle.mesa_disk.specs.Story.{Unmoved};
ghost use Rattle.mesa_store_spec.specs.Fitting.{live_files};
ghost use Rattle.mesa_catalog_table.specs.Files.{AreRecorded, recorded_of};
ghost use Rattle.mesa_catalog_table.specs.declared.recorded.Recorded.{Recorded as AnyRecorded};
ghost use Rattle.mesa_recover.specs.declared.error.OpenError.TheVariants as open_error;
ghost use Rattle.mesa_recover.specs.Checking.{Counts, IsOfFiles};
ghost use Rattle.mesa_recover.specs.Damages.{IsAsRecorded, IsFirstDamage};
ghost use Rattle.mesa_recover.specs.Misfits.{journal_refusal};
ghost use Rattle.mesa_recover.specs.Opening.{HasReason};
ghost use Rattle.mesa_recover.specs.Live.{HasLive};
ghost use Rattle.mesa_recover.specs.Opened.{IsOpened};

use crate::opened::LiveArea;
use crate::records::{area_number, code, misfit, read_records};
use crate::{OpenError, Opened, check_files};
use mesa_catalog::Catalog;
use mesa_disk::{Area, Disk, Made, Seen};
use mesa_journal::{JournalError, read_live};
use std::alloc::Global;

/// Reads a store: both areas of the journal, then each record of the live one, and then each file that the
/// catalogue names, by rising ids. It writes nothing.
pub fn read<M: Made, D: Disk<M>>(alloc: Global, disk: D) -> Result<Opened<D>, (OpenError, D)>
    ensures opened { IfOk result (λ o. IsOpened (D.story o.disk) o) }
    ensures free { IfOk result (λ o. o.catalog.reserved ≡ None) }
    ensures reason { IfErr result (λ e. HasReason (D.story disk) (D.story e.1) e.0) }
    ensures full { IfErr result (λ e. e.0 ≡ open_error.RunsFull → ⊥) }

    // The disk stays as it was, and where it reads without a fault, so do its counts.
    ensures unmoved { IfOk result (λ o. Unmoved (D.story disk) (D.story o.disk)) }
    ensures unmoved_err { IfErr result (λ e. Unmoved (D.story disk) (D.story e.1)) }
    ensures quiet { IfOk result (λ o. ((D.story o.disk).faults ≡ (D.story disk).faults) × ((D.story o.disk).read_faults ≡ (D.story disk).read_faults)) }
    ensures other { IfErr result (λ e. (e.0 ≡ open_error.Fault → ⊥) → ((D.story e.1).faults ≡ (D.story disk).faults) × ((D.story e.1).read_faults ≡ (D.story disk).read_faults)) }
{
    let mut disk = disk;
    let since = disk.clock();
    match read_store(alloc, &mut disk) {
        Ok((catalog, live)) => {
            let last_run = catalog.run();
            Ok(Opened {
                disk,
                catalog,
                last_run,
                area: live.area,
                number: live.number,
                end: live.end,
                holds: live.holds,
                since,
            })
        }
        Err(error) => Err((error, disk)),
    }
}

// The catalogue that the journal makes, and the journal's live area.
fn read_store<M: Made, D: Disk<M>>(
    alloc: Global,
    disk: &mut D,
) -> Result<(Catalog, LiveArea), OpenError>
    ensures found { IfOk result (λ x. HasLive (D.story disk.old) x.1 x.0.catalogue) }
    ensures free { IfOk result (λ x. x.0.reserved ≡ None) }
    ensures reason { IfErr result (HasReason (D.story disk.old) (D.story disk.new)) }
    ensures full { IfErr result (λ e. e ≡ open_error.RunsFull → ⊥) }
    ensures unmoved { Unmoved (D.story disk.old) (D.story disk.new) }
    ensures counts { Counts (D.story disk.old) (D.story disk.new) result }
{
    let journal = match read_live(alloc, disk) {
        Ok(journal) => journal,
        Err((area, error)) => return Err(cut_off(area, error)),
    };
    let bodies = journal.read.bodies.as_slice();
    // Area 1 isn't live without a body on a disk that tells what it has.
    if bodies.is_empty() && journal.live == Area::One {
        return Err(misfit(Area::One, 0, 0));
    }
    let catalog = read_records(alloc, journal.live, bodies)?;
    check_catalog(alloc, disk, &catalog)?;
    let live = LiveArea {
        area: journal.live,
        number: area_number(bodies),
        end: journal.read.end,
        holds: journal.holds,
    };
    Ok((catalog, live))
}

// Tests each file that the catalogue names, by rising ids.
fn check_catalog<M: Made, D: Disk<M>>(
    alloc: Global,
    disk: &mut D,
    catalog: &Catalog,
) -> Result<(), OpenError>
    ensures good { OnOk result ((i : Image) → (D.story disk.old).told ≡ Some i → AllByRecursion (IsAsRecorded i) (map recorded_of (live_files catalog.now.catalogue))) }
    ensures damaged { IfErr result (λ e. (d : AnyDamage) → e ≡ open_error.File d → (files : List AnyRecorded) × AreRecorded catalog.now.catalogue files × ((i : Image) → (D.story disk.old).told ≡ Some i → IsFirstDamage i files d)) }
    ensures kind { IfErr result IsOfFiles }
    ensures unmoved { Unmoved (D.story disk.old) (D.story disk.new) }
    ensures counts { Counts (D.story disk.old) (D.story disk.new) result }
{
    let files = catalog.recorded_files(alloc)?;
    check_files(alloc, disk, files.as_slice())
}

// Why a journal isn't read, an area of which is damaged.
fn cut_off(area: Area, error: JournalError) -> OpenError
    ensures { result ≡ journal_refusal area error }
{
    match error {
        JournalError::Fault => OpenError::Fault,
        JournalError::Damaged { at, want, found } => OpenError::Journal {
            area: code(area),
            at,
            want: Seen::Length(want),
            found: Seen::Length(found),
        },
        JournalError::Memory => OpenError::Memory,
    }
}
