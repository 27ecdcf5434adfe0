// The work that a table's compaction does next.
ghost use Rattle.std.specs.Prelude.{◌≡◌, ◌≤◌, ◌^◌, ℕ, Some, Option, IfSome, []};
ghost use Rattle.mesa_span.specs.declared.ranges.Ranges.{Ranges as RangesOf};
ghost use Rattle.mesa_span.specs.declared.works.Work.{Work as WorkOf};
ghost use Rattle.mesa_span.specs.Ranges.{IsInOrder, IsReachable, Rise};
ghost use Rattle.mesa_span.specs.Work.{missing_end as missing_end_of, next_work as next_work_of, swapped};

use crate::Ranges;

/// How many versions more than the one before it a cumulative covers.
const STEP: u64 = 10;

/// What a table's next compaction makes.
#[derive(Clone, Copy, Debug, PartialEq, Eq)]
pub enum Work {
    /// A base from version 0 to this one.
    Base { to: u32 },
    /// A cumulative of these versions.
    Cumulative { from: u32, to: u32 },
}

/// The next work of a table, with the oldest version that can be queried and the newest one:
/// first a base up to the oldest version, then the first cumulative of ten, twenty and so on
/// versions that isn't there. Takes no memory.
pub fn next_work(ranges: &Ranges, oldest: u32, newest: Option<u32>) -> Option<Work>
    requires { IsInOrder ranges.now }
    ensures { result ≡ next_work_of ranges.now oldest newest }
{
    let start = ranges.start();
    if oldest >= 1 && start <= oldest as u64 {
        return Some(Work::Base { to: oldest });
    }
    let to = missing_end(start, ranges.cumulatives.as_slice(), newest?)?;
    Some(Work::Cumulative {
        from: start as u32,
        to,
    })
}

/// The end of the first cumulative that isn't there: the ends rise, so one look at each is enough.
fn missing_end(start: u64, ends: &[u32], newest: u32) -> Option<u32>
    requires room { start ≤ 2 ^ 32 }
    requires rise { Rise start ends.now }
    ensures missing { result ≡ missing_end_of start ends.now (Some newest) }
    ensures behind { IfSome result (λ end. start ≤ end) }
{
    let mut end = start + STEP - 1;
    for there in ends {
        if *there as u64 == end {
            end += STEP;
        }
    }
    if end <= newest as u64 {
        Some(end as u32)
    } else {
        None
    }
}

/// A table begins without cumulatives, and each work adds the first that isn't there or begins
/// anew: so the ends of cumulatives are in order at all times.
pub fn works_keep_ranges_reachable()
    ensures begun { (base_to : Option ℕ) → IsReachable (record { base_to = base_to; cumulatives = [] }) }
    ensures in_order { (r : RangesOf) → IsReachable r → IsInOrder r }
    ensures kept { (r : RangesOf) (oldest : ℕ) (newest : Option ℕ) (work : WorkOf) → IsReachable r
        → next_work_of r oldest newest ≡ Some work → IsReachable (swapped work r) }
{}
