// The files of ranges, each read once.
ghost use Rattle.std.specs.Prelude.{◌≡◌, ◌≤◌, map, false, IfOk, None, Option, Some};
ghost use Rattle.std.specs.List.{AllByRecursion};
ghost use Rattle.mesa_disk.specs.Image.{Image};
ghost use Rattle.mesa_disk.specs.Story.{Unmoved};
ghost use Rattle.mesa_store_spec.specs.Shape.{IsWithinBound};
ghost use Rattle.mesa_schema.specs.Changes.{epoch_of};
ghost use Rattle.mesa_compare.specs.mesa_open_files.Opening.{Counted};
ghost use Rattle.mesa_compare.specs.mesa_examine.Examined.{is_read_failure};
ghost use Rattle.mesa_check.specs.Held.{delta_of};
ghost use Rattle.mesa_check.specs.Tested.{IsTestOf, range_of};

use crate::files::{are_views_found, test_file};
use crate::range::Held;
use crate::totals::{agree, no_sums};
use mesa_compare::{CheckError, DeltaDisk, Wanted};
use mesa_disk::Made;
use mesa_record::Files;
use mesa_schema::{Evolving, Items};
use std::alloc::{AllocError, Global};
use std::sync::Arc;

/// A range whose files were read.
#[derive(Drop)]
pub(crate) struct Test<'a> {
    pub(crate) range: Held<'a>,
    /// Whether they are the recorded ones.
    pub(crate) found: bool,
    /// Whether the recorded totals are those of the rows; a range without recorded totals has none that aren't.
    pub(crate) totalled: bool,
    /// What the absolute values of the rows at present add up to.
    pub(crate) present: Items<u128>,
}

/// Reads the files of ranges.
pub(crate) fn test_ranges<'a, M: Made, D: DeltaDisk<M>>(
    alloc: Global,
    disk: &mut D,
    evolving: &Arc<Evolving>,
    ranges: &[Held<'a>],
) -> Result<Vec<Test<'a>>, CheckError>
    requires epochs { AllByRecursion (λ r. (delta_of r).epoch ≤ epoch_of evolving.now.value) ranges.now }
    requires totals { AllByRecursion (λ r. IsWithinBound (delta_of r)) ranges.now }
    ensures ranges { IfOk result (λ tests. map range_of tests.items ≡ ranges.now) }
    ensures tests { IfOk result (λ tests. AllByRecursion (IsTestOf (D.story disk.old).told evolving.now.value) tests.items) }
    ensures unmoved { Unmoved (D.story disk.old) (D.story disk.new) }
    ensures counted { Counted (D.story disk.old) (D.story disk.new) (is_read_failure result) }
{
    let mut tests = Vec::new(alloc);
    'each: for range in ranges {
        let test = test_range(alloc, disk, evolving, *range)?;
        tests.push(test)?;
    }
    Ok(tests)
}

fn test_range<'a, M: Made, D: DeltaDisk<M>>(
    alloc: Global,
    disk: &mut D,
    evolving: &Arc<Evolving>,
    range: Held<'a>,
) -> Result<Test<'a>, CheckError>
    requires epoch { (delta_of range).epoch ≤ epoch_of evolving.now.value }
    requires totals { IsWithinBound (delta_of range) }
    ensures range { IfOk result (λ t. t.range ≡ range.entry) }
    ensures test { IfOk result (IsTestOf (D.story disk.old).told evolving.now.value) }
    ensures unmoved { Unmoved (D.story disk.old) (D.story disk.new) }
    ensures counted { Counted (D.story disk.old) (D.story disk.new) (is_read_failure result) }
{
    match range.files() {
        Some(files) => test_files(alloc, disk, evolving, range, files),
        None => Ok(test_none(alloc, evolving, range)?),
    }
}

// A range without rows.
fn test_none<'a>(
    alloc: Global,
    evolving: &Arc<Evolving>,
    range: Held<'a>,
) -> Result<Test<'a>, AllocError>
    requires epoch { (delta_of range).epoch ≤ epoch_of evolving.now.value }
    requires totals { IsWithinBound (delta_of range) }
    requires none { (delta_of range).files ≡ None }
    ensures range { IfOk result (λ t. t.range ≡ range.entry) }
    ensures test { (told : Option Image) → IfOk result (IsTestOf told evolving.now.value) }
{
    let own = evolving.schema_at(range.epoch())?;
    let sums = no_sums(alloc, &own)?;
    let now = no_sums(alloc, evolving.present())?;
    let totalled = agree(range.totals(), &sums);
    Ok(Test {
        range,
        found: true,
        totalled,
        present: Items::from_vec(now),
    })
}

fn test_files<'a, M: Made, D: DeltaDisk<M>>(
    alloc: Global,
    disk: &mut D,
    evolving: &Arc<Evolving>,
    range: Held<'a>,
    files: &Files,
) -> Result<Test<'a>, CheckError>
    requires epoch { (delta_of range).epoch ≤ epoch_of evolving.now.value }
    requires totals { IsWithinBound (delta_of range) }
    requires files { (delta_of range).files ≡ Some files.now }
    ensures range { IfOk result (λ t. t.range ≡ range.entry) }
    ensures test { IfOk result (IsTestOf (D.story disk.old).told evolving.now.value) }
    ensures unmoved { Unmoved (D.story disk.old) (D.story disk.new) }
    ensures counted { Counted (D.story disk.old) (D.story disk.new) (is_read_failure result) }
{
    let own = Wanted {
        file: &files.file,
        evolving,
        epoch: range.epoch(),
    };
    let Some(sums) = test_file(alloc, disk, &own)? else {
        return Ok(not_found(alloc, range));
    };
    if !are_views_found(alloc, disk, evolving, files.views.as_slice())? {
        return Ok(not_found(alloc, range));
    }
    let totalled = agree(range.totals(), sums.own.as_slice());
    Ok(Test {
        range,
        found: true,
        totalled,
        present: sums.present,
    })
}

// A range with a file that isn't the recorded one.
fn not_found<'a>(alloc: Global, range: Held<'a>) -> Test<'a>
    ensures range { result.range ≡ range.entry }
    ensures found { result.found ≡ false }
{
    Test {
        range,
        found: false,
        totalled: false,
        present: Items::new(alloc),
    }
}
