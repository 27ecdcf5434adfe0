// Beginning a run.
ghost use Rattle.std.specs.Prelude.{◌≡◌, ◌≢◌, ◌↔◌, ◌+◌, ◌<◌, ◌≤◌, ℕ, List, [], IfOk, IfErr, IfSome, OnOk, Err, Ok, Some, None, IsTrue};
ghost use Rattle.mesa_store.specs.mesa_key.Spelling.{AreBytes};
ghost use Rattle.mesa_disk.specs.Image.{Image as AnyImage};
ghost use Rattle.mesa_disk.specs.Story.{Spans, Unmoved};
ghost use Rattle.mesa_journal.specs.Areas.{number_of};
ghost use Rattle.mesa_store.specs.mesa_commit.Filed.{AreNamedOrWait, FilesAdopted};
ghost use Rattle.mesa_record.specs.Reading.{record_at};
ghost use Rattle.mesa_record.specs.Rules.{keeps_rules};
ghost use Rattle.mesa_store_spec.specs.Catalog.{applied};
ghost use Rattle.mesa_store_spec.specs.Fitting.{fits};
ghost use Rattle.mesa_store_spec.specs.Contents.{Rows, kept_of};
ghost use Rattle.mesa_store_spec.specs.Sound.{StandsFor};
ghost use Rattle.mesa_store_spec.specs.Ids.{named};
ghost use Rattle.mesa_store.specs.Store.{IsFound};
ghost use Rattle.mesa_recover.specs.declared.error.OpenError.TheVariants as open_error;
ghost use Rattle.mesa_recover.specs.Checking.{Counts, IsFaultOrMemory};
ghost use Rattle.mesa_recover.specs.Strays.{AreStrays};
ghost use Rattle.mesa_recover.specs.Opening.{HasReason, IsHeldAs, IsSoundStart, Keeps, first_id, most_runs, run_record};
ghost use Rattle.mesa_recover.specs.Anew.{IsStatedAnew, StatesAnewBy};
ghost use Rattle.mesa_recover.specs.Live.{HasLive};
ghost use Rattle.mesa_recover.specs.Opened.{IsOpened, StatesAnew};

use crate::anew::state_anew;
use crate::opened::LiveArea;
use crate::{OpenError, Opened, find_strays, frame, write_run};
use mesa_catalog::{Begun, Catalog};
use mesa_disk::{Area, Disk, FileId, Made};
use mesa_journal::Framed;
use mesa_record::Record;
use mesa_store_spec::catalogs_own_ids;
use std::alloc::Global;

// The number of the last run that there may be.
const MOST_RUNS: u32 = (1 << 24) - 1;

/// Begins a run: makes all that was read stay, states the catalogue anew in the other area where the live one
/// has become long, appends the run's record, and removes each adopted file that the catalogue doesn't name.
/// Where there was a last run, nothing is written.
pub fn begin<M: Made, D: Disk<M>>(
    alloc: Global,
    opened: Opened<D>,
) -> Result<Begun<D>, (OpenError, D)>
    requires { IsOpened (D.story opened.disk) opened }

    // The run is the next one, and its record is applied.
    ensures run { IfOk result (λ b. b.run ≡ opened.last_run + 1) }
    ensures catalog { IfOk result (λ b. b.catalog.catalogue ≡ applied opened.catalog.catalogue (run_record b.run)) }
    ensures free { IfOk result (λ b. b.catalog.reserved ≡ None) }
    ensures place { IfOk result (λ b. b.since ≡ opened.since) }
    ensures room { IfOk result (λ b. b.end < (D.story b.disk).len b.area) }

    // The store goes on in the other area just where its catalogue is stated anew.
    ensures area { IfOk result (λ b. (b.area ≢ opened.area) ↔ StatesAnew opened) }

    // A read gives an image where it gave one. From a sound start the disk holds the store after the record, and whatever it answers each image keeps the state.
    ensures told { IfOk result (λ b. (i : AnyImage) → (D.story opened.disk).told ≡ Some i → (j : AnyImage) × ((D.story b.disk).told ≡ Some j)) }
    ensures held { IfOk result (λ b. (rows : Rows) → IsSoundStart (D.story opened.disk) opened.catalog.catalogue rows → IsHeldAs (D.story b.disk) b.area b.end b.catalog.catalogue rows) }
    ensures keeps { IfOk result (λ b. Keeps (D.story opened.disk) (D.story b.disk)) }
    ensures keeps_err { IfErr result (λ e. Keeps (D.story opened.disk) (D.story e.1)) }

    // Each adopted file is one that the catalogue names, and no id of this run is taken.
    ensures filed { IfOk result (λ b. FilesAdopted 0 (first_id b.run) (first_id (b.run + 1)) (named b.catalog.catalogue) [] [] (D.story b.disk).told) }

    ensures reason { IfErr result (λ e. HasReason (D.story opened.disk) (D.story e.1) e.0) }
    ensures full { opened.last_run ≡ most_runs → result ≡ Err (open_error.RunsFull, opened.disk) }
    ensures not_full { opened.last_run < most_runs → IfErr result (λ e. e.0 ≡ open_error.RunsFull → ⊥) }
    ensures quiet { IfOk result (λ b. ((D.story b.disk).faults ≡ (D.story opened.disk).faults) × ((D.story b.disk).read_faults ≡ (D.story opened.disk).read_faults)) }
    ensures clock { IfOk result (λ b. (D.story opened.disk).moment ≤ (D.story b.disk).moment) }
    ensures clock_err { IfErr result (λ e. (D.story opened.disk).moment ≤ (D.story e.1).moment) }

    // Whatever it answers, a read gives an image where it gave one. No count rose but for a fault; and it gives the disk as it was, but for a fault or for want of memory.
    ensures told_err { IfErr result (λ e. (i : AnyImage) → (D.story opened.disk).told ≡ Some i → (j : AnyImage) × ((D.story e.1).told ≡ Some j)) }
    ensures other { IfErr result (λ e. (e.0 ≡ open_error.Fault → ⊥) → ((D.story e.1).faults ≡ (D.story opened.disk).faults) × ((D.story e.1).read_faults ≡ (D.story opened.disk).read_faults)) }
    ensures untouched { IfErr result (λ e. (e.0 ≡ open_error.Fault → ⊥) → (e.0 ≡ open_error.Memory → ⊥) → e.1 ≡ opened.disk) }
{
    catalogs_own_ids();
    let mut opened = opened;
    if opened.last_run >= MOST_RUNS {
        return Err((OpenError::RunsFull, opened.into_disk()));
    }
    let last_run = opened.last_run;
    let live = LiveArea {
        area: opened.area,
        number: opened.number,
        end: opened.end,
        holds: opened.holds,
    };
    match begin_run(alloc, &mut opened.disk, &mut opened.catalog, last_run, live) {
        Ok((area, end)) => Ok(opened.into_begun(area, end)),
        Err(error) => Err((error, opened.into_disk())),
    }
}

impl<D> Opened<D> {
    // The disk alone.
    fn into_disk(self) -> D
        ensures { result ≡ self.disk }
    {
        self.disk
    }

    // The store once its next run has begun, whose journal goes on in this area and ends there.
    fn into_begun(self, area: Area, end: u64) -> Begun<D>
        requires { self.last_run < most_runs }
        ensures { result ≡ record { disk = self.disk; catalog = self.catalog; run = self.last_run + 1; area = area; end = end; since = self.since } }
    {
        Begun {
            disk: self.disk,
            catalog: self.catalog,
            run: self.last_run + 1,
            area,
            end,
            since: self.since,
        }
    }
}

// Takes in the record of the next run, and removes strays. Gives the area in which the store goes on, and the journal's new end there.
fn begin_run<M: Made, D: Disk<M>>(
    alloc: Global,
    disk: &mut D,
    catalog: &mut Catalog,
    last_run: u32,
    live: LiveArea,
) -> Result<(Area, u64), OpenError>
    requires run { last_run ≡ catalog.old.catalogue.run }
    requires few { last_run < most_runs }
    requires live { HasLive (D.story disk.old) live catalog.old.catalogue }
    ensures catalog { OnOk result (catalog.new.catalogue ≡ applied catalog.old.catalogue (run_record (last_run + 1))) }
    ensures free { OnOk result (catalog.new.reserved ≡ None) }
    ensures told { (i : AnyImage) → (D.story disk.old).told ≡ Some i → (j : AnyImage) × ((D.story disk.new).told ≡ Some j) }
    ensures room { IfOk result (λ x. x.1 < (D.story disk.new).len x.0) }
    ensures area { IfOk result (λ x. (x.0 ≢ live.area) ↔ IsStatedAnew live.end live.number catalog.old.catalogue) }
    ensures images { (bodies : List (List ℕ)) (rows : Rows) → live.number ≡ number_of bodies → IsFound (D.story disk.old) live.area bodies live.end catalog.old.catalogue rows → Spans (λ x. StandsFor x (kept_of rows catalog.old.catalogue)) (D.story disk.old) (D.story disk.new) }
    ensures held { IfOk result (λ x. (bodies : List (List ℕ)) (rows : Rows) → live.number ≡ number_of bodies → IsFound (D.story disk.old) live.area bodies live.end catalog.old.catalogue rows → IsHeldAs (D.story disk.new) x.0 x.1 (applied catalog.old.catalogue (run_record (last_run + 1))) rows) }
    ensures named { OnOk result (AreNamedOrWait (named catalog.old.catalogue) [] (D.story disk.new).told) }
    ensures kind { IfErr result IsFaultOrMemory }
    ensures clock { (D.story disk.old).moment ≤ (D.story disk.new).moment }
    ensures counts { Counts (D.story disk.old) (D.story disk.new) result }
{
    next_run_fits(catalog, last_run);
    let record = Record::Run {
        number: last_run + 1,
    };
    let gone = append_run(alloc, disk, catalog, &record, live)?;
    catalog.apply(record);
    Ok(gone)
}

// Takes the memory that a run's record needs, and what states the catalogue anew; writes them, and removes strays. Gives the area in which the store goes on, and the journal's new end there.
fn append_run<M: Made, D: Disk<M>>(
    alloc: Global,
    disk: &mut D,
    catalog: &mut Catalog,
    entry: &Record,
    live: LiveArea,
) -> Result<(Area, u64), OpenError>
    requires run { (number : ℕ) × (entry.now ≡ run_record number) }
    requires rules { IsTrue (keeps_rules entry.now) }
    requires fits { IsTrue (fits catalog.old.catalogue entry.now) }
    requires live { HasLive (D.story disk.old) live catalog.old.catalogue }
    ensures same { catalog.new.catalogue ≡ catalog.old.catalogue }
    ensures reserved { OnOk result (catalog.new.reserved ≡ Some entry.now) }
    ensures told { (i : AnyImage) → (D.story disk.old).told ≡ Some i → (j : AnyImage) × ((D.story disk.new).told ≡ Some j) }
    ensures room { IfOk result (λ x. x.1 < (D.story disk.new).len x.0) }
    ensures area { IfOk result (λ x. (x.0 ≢ live.area) ↔ IsStatedAnew live.end live.number catalog.old.catalogue) }
    ensures images { (bodies : List (List ℕ)) (rows : Rows) → live.number ≡ number_of bodies → IsFound (D.story disk.old) live.area bodies live.end catalog.old.catalogue rows → Spans (λ x. StandsFor x (kept_of rows catalog.old.catalogue)) (D.story disk.old) (D.story disk.new) }
    ensures held { IfOk result (λ x. (bodies : List (List ℕ)) (rows : Rows) → live.number ≡ number_of bodies → IsFound (D.story disk.old) live.area bodies live.end catalog.old.catalogue rows → IsHeldAs (D.story disk.new) x.0 x.1 (applied catalog.old.catalogue entry.now) rows) }
    ensures named { OnOk result (AreNamedOrWait (named catalog.old.catalogue) [] (D.story disk.new).told) }
    ensures kind { IfErr result IsFaultOrMemory }
    ensures clock { (D.story disk.old).moment ≤ (D.story disk.new).moment }
    ensures counts { Counts (D.story disk.old) (D.story disk.new) result }
{
    let (checkpoint, framed, strays) = ready_run(alloc, disk, catalog, entry, live)?;
    let gone = write_run(
        alloc, disk, live.area, live.holds, checkpoint, live.end, &framed, &strays,
    )?;
    Ok(gone)
}

// The record of the next run fits, while there is a number for it.
fn next_run_fits(catalog: &Catalog, last_run: u32)
    requires run { last_run ≡ catalog.now.catalogue.run }
    requires few { last_run < most_runs }
    ensures { IsTrue (fits catalog.now.catalogue (run_record (last_run + 1))) }
{}

// Takes all memory that a run's record needs, before anything is written: the checkpoint's frame and its own,
// room in the catalogue, and the ids of the files that no record names.
fn ready_run<M: Made, D: Disk<M>>(
    alloc: Global,
    disk: &mut D,
    catalog: &mut Catalog,
    entry: &Record,
    live: LiveArea,
) -> Result<(Option<Framed>, Framed, Vec<FileId>), OpenError>
    requires rules { IsTrue (keeps_rules entry.now) }
    requires fits { IsTrue (fits catalog.old.catalogue entry.now) }
    requires live { HasLive (D.story disk.old) live catalog.old.catalogue }
    ensures anew { IfOk result (λ x. StatesAnewBy live.end live.number catalog.old.catalogue x.0) }
    ensures bytes { IfOk result (λ x. IfSome x.0 AreBytes) }
    ensures body { IfOk result (λ x. (record_at x.1 ≡ Ok entry.now) × AreBytes x.1) }
    ensures strays { IfOk result (λ x. AreStrays (D.story disk.old) catalog.old.catalogue x.2.items) }
    ensures same { catalog.new.catalogue ≡ catalog.old.catalogue }
    ensures reserved { OnOk result (catalog.new.reserved ≡ Some entry.now) }
    ensures unmoved { Unmoved (D.story disk.old) (D.story disk.new) }
    ensures kind { IfErr result IsFaultOrMemory }
    ensures counts { Counts (D.story disk.old) (D.story disk.new) result }
{
    let checkpoint = state_anew(alloc, catalog, live)?;
    let framed = frame(alloc, entry)?;
    catalog.reserve(entry)?;
    let files = catalog.recorded_files(alloc)?;
    let strays = find_strays(alloc, disk, &files)?;
    Ok((checkpoint, framed, strays))
}
