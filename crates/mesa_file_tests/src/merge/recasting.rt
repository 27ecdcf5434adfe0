// What comes of recasting a table: its rows are grouped by the second of its key columns.
ghost use Rattle.std.specs.Prelude.{◌≡◌, []};
ghost use Rattle.mesa_schema.specs.Changes.{columns_of};
ghost use Rattle.mesa_query.specs.mesa_columns.Columns.{Columns};
ghost use Rattle.mesa_open_files.specs.Inputs.{AreInputsTo};
ghost use Rattle.mesa_open_files.specs.Recasts.{AreRangesOf, IsRecastTask, IsRecasted, IsRecastedSoFar, own, recast_table};
ghost use Rattle.mesa_open_files.specs.declared.recasting.Recasted.{Recasted as AnyRecasted};

use crate::expected::expect_same;
use crate::merge::files::{Form, file_of, input_of, names};
use crate::merge::merging::{Written, reader_over};
use crate::merge::pairs::{Pair, file_of as pairs_file, table};
use mesa_copy::{regroup_more, regroup_task};
use mesa_delta::FileError;
use mesa_disk::{Damage, FileId, FileReader, FileRef, Made, MemBench, MemMade, MemReader, Seen};
use mesa_file::Serials;
use mesa_key::Format;
use mesa_list::Items;
use mesa_open_files::{CompactError, Recast, RecastRange, Recasted, RecastedRange};
use mesa_schema::Evolving;
use mesa_value::{Agg, Amount};
use std::alloc::Global;
use std::process::Abort;
use std::sync::Arc;

static BASE: [Pair; 3] = [(1, 2, 5), (2, 1, 7), (3, 1, 1)];

static LATER: [Pair; 1] = [(4, 2, -10)];

// Sums that cancel, and whose absolute values add up to more than 2^127 - 1.
static WIDE: [Pair; 2] = [(1, 1, Amount::MAX), (2, 2, -1)];

// What a table is recast from: its base's rows, which read fails of the later file, counted from 0, and the damage that was met when the files were opened.
#[derive(Clone, Copy)]
struct Case {
    base: &'static [Pair],
    fails: Option<u64>,
    damage: Option<Damage>,
}

// Both files whole.
fn whole() -> Case {
    Case {
        base: &BASE,
        fails: None,
        damage: None,
    }
}

// A range of versions with the file of this reference.
fn range_over<R: FileReader + Drop>(
    rt: &impl Abort,
    alloc: Global,
    versions: (u32, u32),
    reader: R,
    file: &FileRef,
    table: &Arc<Evolving>,
) -> RecastRange<R>
    requires { table.now.value.changes ≡ [] }
    ensures { AreInputsTo R.bytes (columns_of table.now.value) (own result) }
{
    let (from, to) = versions;
    let input = Some(input_of(rt, alloc, reader, file, table));
    RecastRange { from, to, input }
}

// A range of versions without rows.
fn empty_range<R: FileReader + Drop>(versions: (u32, u32)) -> RecastRange<R>
    ensures { (s : Columns) → AreInputsTo R.bytes s (own result) }
{
    let (from, to) = versions;
    RecastRange {
        from,
        to,
        input: None,
    }
}

// A range of versions, with the file that is read, if it has rows.
fn range_of<R: FileReader + Drop>(
    rt: &impl Abort,
    alloc: Global,
    versions: (u32, u32),
    opened: Option<(R, FileRef)>,
    table: &Arc<Evolving>,
) -> RecastRange<R>
    requires { table.now.value.changes ≡ [] }
    ensures { AreInputsTo R.bytes (columns_of table.now.value) (own result) }
{
    match opened {
        Some((reader, file)) => range_over(rt, alloc, versions, reader, &file, table),
        None => empty_range(versions),
    }
}

// A file of these rows, and a reader of it, of which a read may fail.
fn opened(
    rt: &impl Abort,
    alloc: Global,
    id: u64,
    rows: &[Pair],
    fails: Option<u64>,
) -> (MemReader, FileRef) {
    let written = pairs_file(rt, alloc, id, rows);
    let reader = reader_over(rt, alloc, &written, fails);
    let Written { bytes, file } = written;
    drop(bytes);
    (reader, file)
}

// The base of a case.
fn base_of(rt: &impl Abort, alloc: Global, case: &Case) -> Option<(MemReader, FileRef)> {
    if case.base.is_empty() {
        return None;
    }
    Some(opened(rt, alloc, 1, case.base, None))
}

// The singleton of a case.
fn later_of(rt: &impl Abort, alloc: Global, case: &Case) -> Option<(MemReader, FileRef)> {
    Some(opened(rt, alloc, 2, &LATER, case.fails))
}

// The recast of a table to its key column `b` and its sum, of one range.
fn recast_of<R: FileReader + Drop>(
    rt: &impl Abort,
    alloc: Global,
    table: &Arc<Evolving>,
    range: RecastRange<R>,
    damage: Option<Damage>,
) -> Recast<R>
    requires { AreInputsTo R.bytes (columns_of table.now.value) (own range) }
    ensures task { IsRecastTask R.bytes result }
    ensures table { recast_table result ≡ table.now.value }
{
    let keys = Items::from_vec(names(rt, alloc, "b"));
    let values = Items::from_vec(names(rt, alloc, "v"));
    let Ok(()) = table.check_recast(keys.as_slice(), values.as_slice()) else {
        panic!(rt; "not allowed");
    };
    let mut ranges = Vec::new(alloc);
    if ranges.push(range).is_err() {
        panic!(rt; "no memory");
    }
    Recast {
        table: 0,
        lease: 1,
        epoch: table.epoch(),
        evolving: table.clone().expect(rt, "memory"),
        keys,
        values,
        ranges,
        damage,
    }
}

// Adds a range that came meanwhile.
fn add_range<M: Made, R: FileReader + Drop>(
    rt: &impl Abort,
    task: &mut Recast<R>,
    range: RecastRange<R>,
)
    requires task { IsRecastTask R.bytes task.old }
    requires range { AreInputsTo R.bytes (columns_of (recast_table task.old)) (own range) }
    ensures task { IsRecastTask R.bytes task.new }
    ensures begun { (made : AnyRecasted M) → IsRecasted M.bytes M.id_of R.bytes task.old made → IsRecastedSoFar M.bytes M.id_of R.bytes task.new made }
{
    let Ok(()) = task.ranges.push(range) else {
        panic!(rt; "no memory");
    };
}

// Recasts a table with a base and a singleton, all at once, through a bench of which these calls fail.
fn recasted(
    rt: &impl Abort,
    alloc: Global,
    case: &Case,
    calls: &[(u64, u64)],
) -> Result<Recasted<MemMade>, CompactError> {
    let calls = Vec::from_slice(alloc, calls).expect(rt, "memory");
    let mut bench = MemBench::new(alloc, calls);
    let table = table(rt, alloc);
    let base = range_of(rt, alloc, (0, 3), base_of(rt, alloc, case), &table);
    let mut task = recast_of(rt, alloc, &table, base, case.damage);
    let later = range_of(rt, alloc, (4, 4), later_of(rt, alloc, case), &table);
    add_range::<MemMade, MemReader>(rt, &mut task, later);
    let mut ids = Serials::new(1, 2);
    regroup_task(alloc, &mut bench, &mut ids, &mut task)
}

// Stops the test of a range whose file hasn't just these rows, under this id.
fn expect_file(
    rt: &impl Abort,
    alloc: Global,
    range: &RecastedRange<MemMade>,
    serial: u32,
    rows: &[(i64, Amount)],
) {
    let form = Form {
        format: Format::Two,
        agg: Agg::Sum,
    };
    let (_, wanted) = file_of(rt, alloc, FileId::of(3), form, rows);
    let Some(file) = &range.file else {
        panic!(rt; "no file");
    };
    expect_same(rt, &file.file.digest, &wanted.digest, &rows);
    let id = FileId::new(1, 2, serial);
    expect_same(rt, &file.file.id, &id, &rows);
}

// Stops the test of a range of other versions, or with another total.
fn expect_range(
    rt: &impl Abort,
    range: &RecastedRange<MemMade>,
    versions: (u32, u32),
    total: u128,
) {
    expect_same(rt, &(range.from, range.to), &versions, &"versions");
    expect_same(rt, &range.totals.as_slice(), &[total].as_slice(), &"totals");
}

#[test]
fn groups_the_rows_of_each_range(rt: HostRuntime) {
    let alloc = rt.alloc();
    let Ok(made) = recasted(&rt, alloc, &whole(), &[]) else {
        panic!(&rt; "not recast");
    };
    let [base, later] = made.ranges.as_slice() else {
        panic!(&rt; "not two ranges");
    };
    expect_range(&rt, base, (0, 3), 13);
    expect_file(&rt, alloc, base, 0, &[(1, 8), (2, 5)]);
    expect_range(&rt, later, (4, 4), 10);
    expect_file(&rt, alloc, later, 1, &[(2, -10)]);
}

#[test]
fn a_base_without_rows_gets_no_file(rt: HostRuntime) {
    let alloc = rt.alloc();
    let case = Case {
        base: &[],
        ..whole()
    };
    let Ok(made) = recasted(&rt, alloc, &case, &[]) else {
        panic!(&rt; "not recast");
    };
    let [base, later] = made.ranges.as_slice() else {
        panic!(&rt; "not two ranges");
    };
    expect_range(&rt, base, (0, 3), 0);
    assert!(&rt; base.file.is_none());
    expect_file(&rt, alloc, later, 0, &[(2, -10)]);
}

// Stops the test of a recast that isn't refused for this reason.
fn expect_refusal(
    rt: &impl Abort,
    alloc: Global,
    case: &Case,
    calls: &[(u64, u64)],
    wanted: CompactError,
) {
    let found = recasted(rt, alloc, case, calls).err();
    expect_same(rt, &found, &Some(wanted), &calls);
}

// A file wasn't there when it was opened.
fn absence() -> Damage {
    Damage {
        file: FileId::of(1),
        place: 0,
        want: Seen::Length(9),
        found: Seen::Absent,
    }
}

// No draft is begun: of the first one each call would fail.
#[test]
fn damage_met_at_the_grant_comes_first(rt: HostRuntime) {
    let case = Case {
        damage: Some(absence()),
        ..whole()
    };
    let wanted = CompactError::File(FileError::Damaged(absence()));
    expect_refusal(&rt, rt.alloc(), &case, &[(0, 0)], wanted);
}

// Of the drafts of both ranges the making, the appends of the block and of the tail, and the end.
#[test]
fn a_failed_call_of_a_recasts_draft_is_told(rt: HostRuntime) {
    for draft in 0..2 {
        for call in 0..4 {
            let calls = [(draft, call)];
            expect_refusal(&rt, rt.alloc(), &whole(), &calls, CompactError::Draft);
        }
    }
}

// No draft is begun for it: of the first one each call would fail.
#[test]
fn a_total_past_the_bound_is_told(rt: HostRuntime) {
    let case = Case {
        base: &WIDE,
        ..whole()
    };
    let damage = Damage {
        file: FileId::of(1),
        place: 0,
        want: Seen::Fits,
        found: Seen::Misfit(0),
    };
    let wanted = CompactError::File(FileError::Damaged(damage));
    expect_refusal(&rt, rt.alloc(), &case, &[(0, 0)], wanted);
}

#[test]
fn a_failed_read_of_a_recasts_file_is_told(rt: HostRuntime) {
    let case = Case {
        fails: Some(1),
        ..whole()
    };
    let wanted = CompactError::File(FileError::Read);
    expect_refusal(&rt, rt.alloc(), &case, &[], wanted);
}

// What came meanwhile is rewritten behind what was, and where it can't be, that stays as it was.
#[test]
fn what_came_meanwhile_is_rewritten_behind(rt: HostRuntime) {
    let alloc = rt.alloc();
    let calls = vec![in alloc; (1, 0)].expect(&rt, "memory");
    let mut bench = MemBench::new(alloc, calls);
    let table = table(&rt, alloc);
    let base = range_of(&rt, alloc, (0, 3), base_of(&rt, alloc, &whole()), &table);
    let mut task = recast_of(&rt, alloc, &table, base, None);
    let mut ids = Serials::new(1, 2);
    let Ok(mut made) = regroup_task(alloc, &mut bench, &mut ids, &mut task) else {
        panic!(&rt; "not recast");
    };
    let later = range_of(&rt, alloc, (4, 4), later_of(&rt, alloc, &whole()), &table);
    add_range::<MemMade, MemReader>(&rt, &mut task, later);
    let failed = regroup_more(alloc, &mut bench, &mut ids, &mut task, &mut made);
    expect_same(&rt, &failed, &Err(CompactError::Draft), &"a draft fails");
    assert_eq!(&rt; made.ranges.len(), 1);
    let more = regroup_more(alloc, &mut bench, &mut ids, &mut task, &mut made);
    expect_same(&rt, &more, &Ok(()), &"again");
    let [base, later] = made.ranges.as_slice() else {
        panic!(&rt; "not two ranges");
    };
    expect_file(&rt, alloc, base, 0, &[(1, 8), (2, 5)]);
    expect_file(&rt, alloc, later, 2, &[(2, -10)]);
}
