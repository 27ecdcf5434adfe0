// A store that is stopped at any moment is found as it was before the record that was being written, or as it is after it.
use crate::shown::{expect_files, shown};
use crate::spelled::{BEGUN, STEPS, Step};
use crate::store::{Store, open, write};
use mesa_disk::{Disk, MemDisk};
use mesa_recover::read;
use std::alloc::{AllocError, Global};
use std::process::Abort;
use std::test::Fail;

// What a disk's store stands for.
fn found(rt: &impl Abort, alloc: Global, disk: MemDisk) -> Result<String, AllocError> {
    match read(alloc, disk) {
        Ok(opened) => shown(rt, alloc, &opened.catalog),
        Err((error, _disk)) => format!(in alloc; "{error:?}"),
    }
}

/// A store, of which just the files are there that it names.
pub fn whole(rt: &impl Abort, alloc: Global, store: &mut Store) -> Result<String, Fail> {
    expect_files(rt, alloc, &mut store.disk, &store.catalog)?;
    Ok(shown(rt, alloc, &store.catalog)?)
}

// What a disk's store stands for once another run has begun on it.
fn found_begun(rt: &impl Abort, alloc: Global, disk: MemDisk) -> Result<String, Fail> {
    match open(alloc, disk) {
        Ok(mut store) => whole(rt, alloc, &mut store),
        Err((error, _disk)) => Ok(format!(in alloc; "{error:?}")?),
    }
}

// A moment of a disk, and what is left of the calls that no sync had followed.
#[derive(Clone, Copy, Debug)]
struct Crash {
    moment: u64,
    pick: u8,
}

// Stops the test where an image isn't the same store once a run has begun on it.
fn expect_begun(
    rt: &impl Abort,
    alloc: Global,
    disk: &MemDisk,
    crash: Crash,
    state: &str,
) -> Result<(), Fail> {
    let image = disk.image(crash.moment, crash.pick)?;
    let begun = found_begun(rt, alloc, image)?;
    assert_eq!(rt; begun.as_str(), state, "begun at {crash:?}");
    Ok(())
}

// Stops the test where an image is neither of two stores.
fn expect_image(
    rt: &impl Abort,
    alloc: Global,
    disk: &MemDisk,
    crash: Crash,
    before: &str,
    after: &str,
) -> Result<(), Fail> {
    let image = disk.image(crash.moment, crash.pick)?;
    let state = found(rt, alloc, image)?;
    let is_either = state.as_str() == before || state.as_str() == after;
    assert!(rt; is_either, "found at {crash:?}: {state}");
    expect_begun(rt, alloc, disk, crash, state.as_str())
}

// The same of each image of a moment.
fn expect_moment(
    rt: &impl Abort,
    alloc: Global,
    disk: &MemDisk,
    moment: u64,
    before: &str,
    after: &str,
) -> Result<(), Fail> {
    for pick in 0..5_u8 {
        expect_image(rt, alloc, disk, Crash { moment, pick }, before, after)?;
    }
    Ok(())
}

/// Stops the test where an image of a moment from one on is neither of two stores. The last moment is behind the record.
pub fn expect_moments(
    rt: &impl Abort,
    alloc: Global,
    disk: &MemDisk,
    since: u64,
    before: &str,
    after: &str,
) -> Result<(), Fail> {
    for moment in since..disk.clock() {
        expect_moment(rt, alloc, disk, moment, before, after)?;
    }
    expect_moment(rt, alloc, disk, disk.clock(), after, after)
}

// Writes a record, and looks at each moment since the one before it.
fn take_step(
    rt: &impl Abort,
    alloc: Global,
    store: &mut Store,
    before: &str,
    step: &Step,
) -> Result<(), Fail> {
    let since = store.disk.clock();
    write(rt, alloc, store, step);
    let state = whole(rt, alloc, store)?;
    assert_eq!(rt; state.as_str(), step.state);
    expect_moments(rt, alloc, &store.disk, since, before, step.state)
}

fn invariant(rt: &impl Abort, alloc: Global, store: &mut Store) -> Result<(), Fail> {
    expect_moments(rt, alloc, &store.disk, 0, BEGUN, BEGUN)?;
    let mut before = BEGUN;
    for step in &STEPS {
        take_step(rt, alloc, store, before, step)?;
        before = step.state;
    }
    Ok(())
}

// A disk that has nothing yet.
fn empty(alloc: Global) -> MemDisk {
    MemDisk::new(
        alloc,
        Vec::new(alloc),
        Vec::new(alloc),
        Vec::new(alloc),
        Vec::new(alloc),
    )
}

#[test]
fn each_moment_has_the_store_before_a_record_or_after_it(rt: HostRuntime) -> Result<(), Fail> {
    let alloc = rt.alloc();
    let Ok(mut store) = open(alloc, empty(alloc)) else {
        return Err("not opened".into());
    };
    invariant(&rt, alloc, &mut store)
}
