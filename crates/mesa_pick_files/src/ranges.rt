// Opening the files of a table's ranges, one for each range.
ghost use Rattle.std.specs.Prelude.{◌≡◌, ◌≢◌, ◌≤◌, ℕ, None, IfOk, IfSome, is_some, length};
ghost use Rattle.std.specs.Bool.{OnTrue};
ghost use Rattle.std.specs.List.{AllByRecursion};
ghost use Rattle.mesa_schema.specs.Changes.{epoch_of};
ghost use Rattle.mesa_disk.specs.Story.{Unmoved};
ghost use Rattle.mesa_validate.specs.mesa_store_spec.Catalog.{start_in};
ghost use Rattle.mesa_validate.specs.mesa_store_spec.Fitting.{deltas_of};
ghost use Rattle.mesa_catalog_table.specs.Meaning.{IsTable, delta_or_empty, meta_of};
ghost use Rattle.mesa_open_files.specs.Opening.{Counted};
ghost use Rattle.mesa_pick_files.specs.Gathered.{is_fault_among};
ghost use Rattle.mesa_pick_files.specs.Ranges.{HasInput, HasMore, HoldsAll, HoldsAt, HoldsEach, IsDamagedAs, IsDamagedRange, IsOfRange, base_ranged, first_ranged, singles_ranged};
ghost use Rattle.mesa_pick_files.specs.Ranging.{HasMoreAs, of_table};

use mesa_catalog_table::{Delta, Table};
use mesa_disk::Made;
use mesa_file::Damage;
use mesa_open_files::{DeltaDisk, Met, RecastRange, Unopened, Wanted, open_one, retire_ranges};
use mesa_schema::Evolving;
use std::alloc::{AllocError, Global};
use std::sync::Arc;

/// The open files of a table that is to be recast: all that a recast has of its table before it is granted.
#[derive(Drop)]
pub struct GatheredRanges<R> {
    pub epoch: u32,
    /// The table as it is now.
    pub evolving: Arc<Evolving>,
    pub ranges: Vec<RecastRange<R>>,
    /// The first file that was absent or damaged.
    pub damage: Option<Damage>,
}

/// Opens the file of each of a table's ranges. The first one that isn't the recorded one ends the opening, and is told in what is gathered. A base has its range where it has no rows too.
pub fn gather_recast<M: Made, D: DeltaDisk<M>>(
    alloc: Global,
    disk: &mut D,
    table: &Table,
) -> Result<GatheredRanges<D::Reader>, Unopened>
    requires { (next : ℕ) × IsTable next table.now × AllByRecursion (λ d. d.epoch ≤ epoch_of table.now.evolving.value) (deltas_of (meta_of next table.now)) }
    ensures unmoved { Unmoved (D.story disk.old) (D.story disk.new) }
    ensures counted { Counted (D.story disk.old) (D.story disk.new) (is_fault_among result) }
    ensures epoch { IfOk result (λ g. g.epoch ≡ epoch_of table.now.evolving.value) }
    ensures evolving { IfOk result (λ g. g.evolving.value ≡ table.now.evolving.value) }
    ensures damage { IfOk result (λ g. IfSome g.damage (λ d. d.want ≢ d.found)) }
    ensures ranges { (next : ℕ) → IsTable next table.now → IfOk result (λ g. AllByRecursion (IsOfRange D.Reader.bytes D.Reader.faults (D.story disk.old).told (meta_of next table.now)) g.ranges.items) }
    ensures holds { (next : ℕ) → IsTable next table.now → IfOk result (λ g. g.damage ≡ None → HoldsAll g.ranges.items (meta_of next table.now)) }
    ensures damaged { (next : ℕ) → IsTable next table.now → IfOk result (λ g. IfSome g.damage (IsDamagedRange (D.story disk.old).told (meta_of next table.now))) }
{
    let Ok(evolving) = table.evolving.clone() else {
        return Err(Unopened::Memory);
    };
    let Ok(mut ranges) = first_ranges(alloc, table) else {
        return Err(Unopened::Memory);
    };
    match gather_more(alloc, disk, table, &mut ranges) {
        Ok(damage) => Ok(GatheredRanges {
            epoch: table.evolving.epoch(),
            evolving,
            ranges,
            damage,
        }),
        Err(unopened) => {
            retire_ranges(disk, ranges);
            Err(unopened)
        }
    }
}

/// Opens the file of each range with rows that a table has and that isn't among these ranges yet, and adds it to them. The first file that isn't the recorded one ends the opening. The ranges that were there stay, also where a call fails or memory is wanting.
pub fn gather_more<M: Made, D: DeltaDisk<M>>(
    alloc: Global,
    disk: &mut D,
    table: &Table,
    ranges: &mut Vec<RecastRange<D::Reader>>,
) -> Result<Option<Damage>, Unopened>
    requires { (next : ℕ) × IsTable next table.now × AllByRecursion (λ d. d.epoch ≤ epoch_of table.now.evolving.value) (deltas_of (meta_of next table.now)) }
    ensures unmoved { Unmoved (D.story disk.old) (D.story disk.new) }
    ensures counted { Counted (D.story disk.old) (D.story disk.new) (is_fault_among result) }
    ensures more { (next : ℕ) → IsTable next table.now → HasMore D.Reader.bytes D.Reader.faults (D.story disk.old).told (meta_of next table.now) ranges.old.items ranges.new.items }
    ensures holds { (next : ℕ) → IsTable next table.now → IfOk result (λ d. d ≡ None → HoldsAll ranges.new.items (meta_of next table.now)) }
    ensures differs { IfOk result (λ d. IfSome d (λ d. d.want ≢ d.found)) }
    ensures damaged { (next : ℕ) → IsTable next table.now → IfOk result (λ d. IfSome d (IsDamagedRange (D.story disk.old).told (meta_of next table.now))) }
{
    match gather_base(alloc, disk, table, ranges)? {
        Some(damage) => Ok(Some(damage)),
        None => gather_singles(alloc, disk, table, ranges),
    }
}

// The file of a base, which is the first of a task's ranges.
fn gather_base<M: Made, D: DeltaDisk<M>>(
    alloc: Global,
    disk: &mut D,
    table: &Table,
    ranges: &mut Vec<RecastRange<D::Reader>>,
) -> Result<Option<Damage>, Unopened>
    requires { (next : ℕ) × IsTable next table.now × AllByRecursion (λ d. d.epoch ≤ epoch_of table.now.evolving.value) (deltas_of (meta_of next table.now)) }
    ensures unmoved { Unmoved (D.story disk.old) (D.story disk.new) }
    ensures counted { Counted (D.story disk.old) (D.story disk.new) (is_fault_among result) }
    ensures more { (next : ℕ) → HasMore D.Reader.bytes D.Reader.faults (D.story disk.old).told (meta_of next table.now) ranges.old.items ranges.new.items }
    ensures holds { (next : ℕ) → IfOk result (λ d. d ≡ None → HoldsEach ranges.new.items (base_ranged (meta_of next table.now).base)) }
    ensures differs { IfOk result (λ d. IfSome d (λ d. d.want ≢ d.found)) }
    ensures damaged { (next : ℕ) → IfOk result (λ d. IfSome d (IsDamagedRange (D.story disk.old).told (meta_of next table.now))) }
{
    let Some(base) = &table.base else {
        return Ok(None);
    };
    let Some(delta) = &base.delta else {
        return Ok(None);
    };
    let range = TableRange {
        from: 0,
        to: base.to,
        delta,
    };
    hold_range(alloc, disk, table, &range, 0, ranges)
}

// The files of singletons. Both they and a task's ranges rise, so a place among these is gone on from.
fn gather_singles<M: Made, D: DeltaDisk<M>>(
    alloc: Global,
    disk: &mut D,
    table: &Table,
    ranges: &mut Vec<RecastRange<D::Reader>>,
) -> Result<Option<Damage>, Unopened>
    requires { (next : ℕ) × IsTable next table.now × AllByRecursion (λ d. d.epoch ≤ epoch_of table.now.evolving.value) (deltas_of (meta_of next table.now)) }
    ensures unmoved { Unmoved (D.story disk.old) (D.story disk.new) }
    ensures counted { Counted (D.story disk.old) (D.story disk.new) (is_fault_among result) }
    ensures more { (next : ℕ) → IsTable next table.now → HasMore D.Reader.bytes D.Reader.faults (D.story disk.old).told (meta_of next table.now) ranges.old.items ranges.new.items }
    ensures holds { (next : ℕ) → IsTable next table.now → IfOk result (λ d. d ≡ None → HoldsEach ranges.new.items (singles_ranged (start_in (meta_of next table.now)) (meta_of next table.now).singles)) }
    ensures differs { IfOk result (λ d. IfSome d (λ d. d.want ≢ d.found)) }
    ensures damaged { (next : ℕ) → IsTable next table.now → IfOk result (λ d. IfSome d (IsDamagedRange (D.story disk.old).told (meta_of next table.now))) }
{
    let mut place = 0;
    'singles: for single in &table.loaded {
        let version = single.version;
        place = place_from(ranges, place, version);
        let range = TableRange {
            from: version,
            to: version,
            delta: &single.delta,
        };
        let met = match hold_range(alloc, disk, table, &range, place, ranges) {
            Ok(met) => met,
            Err(unopened) => return Err(unopened),
        };
        if let Some(damage) = met {
            return Ok(Some(damage));
        }
    }
    Ok(None)
}

// A base without rows has its range, with no file.
fn first_ranges<R>(alloc: Global, table: &Table) -> Result<Vec<RecastRange<R>>, AllocError>
    ensures { (next : ℕ) → IsTable next table.now → IfOk result (λ ranges. ranges.items ≡ first_ranged (meta_of next table.now).base) }
{
    let mut ranges = Vec::with_capacity(alloc, 1)?;
    let Some(base) = &table.base else {
        return Ok(ranges);
    };
    if has_rows(&base.delta) {
        return Ok(ranges);
    }
    ranges.push_reserved(RecastRange {
        from: 0,
        to: base.to,
        input: None,
    });
    Ok(ranges)
}

fn has_rows(delta: &Option<Arc<Delta>>) -> bool
    ensures { result ≡ is_some (delta_or_empty delta.now).files }
{
    match delta {
        Some(delta) => delta.files.is_some(),
        None => false,
    }
}

// The first place, from this one on, of a range that begins at a version or behind it.
fn place_from<R>(ranges: &[RecastRange<R>], place: usize, version: u32) -> usize
    requires { place ≤ length ranges.now }
    ensures { result ≤ length ranges.now }
{
    match ranges[place..]
        .iter()
        .position(|range| range.from >= version)
    {
        Some(count) => place + count,
        None => ranges.len(),
    }
}

// A range of versions of a table, and its delta.
#[derive(Drop)]
struct TableRange<'a> {
    from: u32,
    to: u32,
    delta: &'a Delta,
}

// Opens the file of a range, unless it is there already, at a place.
fn hold_range<'a, M: Made, D: DeltaDisk<M>>(
    alloc: Global,
    disk: &mut D,
    table: &'a Table,
    range: &TableRange<'a>,
    place: usize,
    ranges: &mut Vec<RecastRange<D::Reader>>,
) -> Result<Option<Damage>, Unopened>
    requires { range.now.delta.now.epoch ≤ epoch_of table.now.evolving.value }
    ensures unmoved { Unmoved (D.story disk.old) (D.story disk.new) }
    ensures counted { Counted (D.story disk.old) (D.story disk.new) (is_fault_among result) }
    ensures more { HasMoreAs D.Reader.bytes D.Reader.faults (D.story disk.old).told table.now.evolving.value (of_table range.now) ranges.old.items ranges.new.items }
    ensures holds { IfOk result (λ d. d ≡ None → HoldsAt ranges.new.items range.now.from range.now.to range.now.delta.now.files) }
    ensures differs { IfOk result (λ d. IfSome d (λ d. d.want ≢ d.found)) }
    ensures damaged { IfOk result (λ d. IfSome d (IsDamagedAs (D.story disk.old).told table.now.evolving.value range.now.delta.now)) }
{
    if is_held(ranges, place, range.from, range.to) {
        return Ok(None);
    }
    open_range(alloc, disk, table, range, ranges)
}

// Whether the range at a place is this one, with an input.
fn is_held<R>(ranges: &[RecastRange<R>], place: usize, from: u32, to: u32) -> bool
    ensures { OnTrue result (HasInput ranges.now from to) }
{
    match ranges.get(place) {
        Some(range) => range.from == from && range.to == to && range.input.is_some(),
        None => false,
    }
}

// Opens the file of a range, if it has one.
fn open_range<'a, M: Made, D: DeltaDisk<M>>(
    alloc: Global,
    disk: &mut D,
    table: &'a Table,
    range: &TableRange<'a>,
    ranges: &mut Vec<RecastRange<D::Reader>>,
) -> Result<Option<Damage>, Unopened>
    requires { range.now.delta.now.epoch ≤ epoch_of table.now.evolving.value }
    ensures unmoved { Unmoved (D.story disk.old) (D.story disk.new) }
    ensures counted { Counted (D.story disk.old) (D.story disk.new) (is_fault_among result) }
    ensures more { HasMoreAs D.Reader.bytes D.Reader.faults (D.story disk.old).told table.now.evolving.value (of_table range.now) ranges.old.items ranges.new.items }
    ensures holds { IfOk result (λ d. d ≡ None → HoldsAt ranges.new.items range.now.from range.now.to range.now.delta.now.files) }
    ensures differs { IfOk result (λ d. IfSome d (λ d. d.want ≢ d.found)) }
    ensures damaged { IfOk result (λ d. IfSome d (IsDamagedAs (D.story disk.old).told table.now.evolving.value range.now.delta.now)) }
{
    let delta = range.delta;
    let Some(files) = &delta.files else {
        return Ok(None);
    };
    if ranges.reserve(1).is_err() {
        return Err(Unopened::Memory);
    }
    let wanted = Wanted {
        file: &files.file,
        evolving: &table.evolving,
        epoch: delta.epoch,
    };
    match open_one(alloc, disk, &wanted) {
        Met::Input(input) => {
            ranges.push_reserved(RecastRange {
                from: range.from,
                to: range.to,
                input: Some(input),
            });
            Ok(None)
        }
        Met::Damaged(damage) => Ok(Some(damage)),
        Met::Fault => Err(Unopened::Fault),
        Met::Memory => Err(Unopened::Memory),
    }
}
