// The ranges that a query reads.
ghost use Rattle.std.specs.Prelude.{◌≡◌, ℕ, ◌≤◌, ◌+◌, ◌++◌, IfOk, OnOk, IfSome};
ghost use Rattle.std.specs.Option.{ForSome};
ghost use Rattle.mesa_span.specs.declared.ranges.Ranges.{Ranges as RangesOf};
ghost use Rattle.mesa_span.specs.Ranges.{IsInOrder};
ghost use Rattle.mesa_span.specs.Plan.{IsLeast, IsSpanning, base_span, behind_base, longest, plan as plan_of, singletons};

use crate::{Ranges, Span};
use std::alloc::{AllocError, Global};

/// The ranges that a query at a version reads: the base, the longest cumulative that ends at or
/// before the version, and one range for each version behind that. The version is at least the
/// base's end, since older ones can't be queried.
pub fn plan(alloc: Global, ranges: &Ranges, version: u32) -> Result<Vec<Span>, AllocError>
    requires in_order { IsInOrder ranges.now }
    requires base_within { ForSome ranges.now.base_to (λ to. to ≤ version) }
    ensures plan { IfOk result (λ spans. spans.items ≡ plan_of ranges.now version) }
    ensures spanning { IfOk result (λ spans. IsSpanning ranges.now version spans.items) }
    ensures least { IfOk result (λ spans. IsLeast ranges.now version spans.items) }
{
    let mut spans = Vec::new(alloc);
    push_base(&mut spans, ranges.base_to)?;
    let end = longest_end(ranges.cumulatives.as_slice(), version);
    push_behind_base(&mut spans, ranges.start(), end, version)?;
    Ok(spans)
}

/// Adds the base's range, where there is a base.
fn push_base(spans: &mut Vec<Span>, base_to: Option<u32>) -> Result<(), AllocError>
    ensures { OnOk result (spans.new.items ≡ spans.old.items ++ base_span base_to) }
{
    if let Some(to) = base_to {
        spans.push((0, to))?;
    }
    Ok(())
}

/// The greatest of the ends that is at most the version.
fn longest_end(ends: &[u32], version: u32) -> Option<u32>
    ensures { result ≡ longest version ends.now }
{
    ends.iter().copied().filter(|end| *end <= version).max()
}

/// Adds the range of a cumulative that ends there, where there is one, and a range for each
/// version behind it.
fn push_behind_base(
    spans: &mut Vec<Span>,
    start: u64,
    end: Option<u32>,
    version: u32,
) -> Result<(), AllocError>
    requires start { start ≤ version + 1 }
    requires end { IfSome end (λ last. (start ≤ last) × (last ≤ version)) }
    ensures { OnOk result (spans.new.items ≡ spans.old.items ++ behind_base start end version) }
{
    match end {
        None => push_singletons(spans, start, version),
        Some(end) => {
            spans.push((start as u32, end))?;
            push_singletons(spans, end as u64 + 1, version)
        }
    }
}

/// Adds a range for each version from one on, up to and including another.
fn push_singletons(spans: &mut Vec<Span>, from: u64, to: u32) -> Result<(), AllocError>
    requires { from ≤ to + 1 }
    ensures { OnOk result (spans.new.items ≡ spans.old.items ++ singletons from to) }
{
    for version in from..to as u64 + 1 {
        spans.push((version as u32, version as u32))?;
    }
    Ok(())
}

/// Each plan spans the versions up to its own by ranges that are there, and no spanning set taken
/// from the same ranges has fewer members.
pub fn plans_are_least()
    ensures { (r : RangesOf) (v : ℕ) → IsInOrder r → ForSome r.base_to (λ to. to ≤ v)
        → IsSpanning r v (plan_of r v) × IsLeast r v (plan_of r v) }
{}
