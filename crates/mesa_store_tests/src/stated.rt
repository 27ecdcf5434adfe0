// A store whose journal is long is stated anew in the other area, and stands for what it stood for.
use crate::moments::{expect_moments, whole};
use crate::shown::shown;
use crate::spelled::{BEGUN, FILES, FIRST_FILE, STEPS};
use crate::store::{Store, open};
use mesa_disk::{Area, ByteList, Disk, FileId, MemDisk};
use mesa_recover::read;
use std::alloc::Global;
use std::process::Abort;
use std::test::Fail;

// So many runs are behind a journal of 65,540 bytes.
const RUNS: u32 = 6_554;

fn put(rt: &impl Abort, area: &mut Vec<u8>, bytes: &[u8]) {
    area.extend_from_slice(bytes).expect(rt, "memory");
}

// Adds a record to an area whose last gate is open.
fn put_body(rt: &impl Abort, area: &mut Vec<u8>, body: &[u8]) {
    put(rt, area, &[1]);
    let len = u32::try_from(body.len()).expect(rt, "a length");
    put(rt, area, &len.to_be_bytes());
    put(rt, area, body);
}

fn put_run(rt: &impl Abort, area: &mut Vec<u8>, run: u32) {
    let [a, b, c, d] = run.to_be_bytes();
    put_body(rt, area, &[1, a, b, c, d]);
}

// The area of a first run with so many steps, and of many runs behind it.
fn area_of(rt: &impl Abort, alloc: Global, steps: usize) -> Vec<u8> {
    let mut area = Vec::new(alloc);
    put_run(rt, &mut area, 1);
    for step in STEPS.iter().take(steps) {
        let body = hex::decode(alloc, step.body).expect(rt, "digits");
        put_body(rt, &mut area, &body);
    }
    for run in 2..=RUNS {
        put_run(rt, &mut area, run);
    }
    put(rt, &mut area, &[0]);
    area
}

// All files that run 1 adopted.
fn files(rt: &impl Abort, alloc: Global) -> Vec<(FileId, ByteList)> {
    let mut files = Vec::new(alloc);
    for (number, digits) in FILES.iter().enumerate() {
        let id = FileId::of(FIRST_FILE.saturating_add(number as u64));
        let bytes = hex::decode(alloc, digits).expect(rt, "digits");
        files
            .push((id, ByteList::from_vec(bytes)))
            .expect(rt, "memory");
    }
    files
}

fn disk_of(rt: &impl Abort, alloc: Global, area: Vec<u8>) -> MemDisk {
    MemDisk::new(
        alloc,
        area,
        Vec::new(alloc),
        files(rt, alloc),
        Vec::new(alloc),
    )
}

// The store of an area, which goes on in the other one.
fn moved(rt: &impl Abort, alloc: Global, area: Vec<u8>) -> Result<Store, Fail> {
    let Ok(store) = open(alloc, disk_of(rt, alloc, area)) else {
        return Err("not opened".into());
    };
    assert!(rt; store.area == Area::One);
    assert_eq!(rt; store.run, RUNS + 1);
    Ok(store)
}

// The store behind so many steps, which goes on in the other area. Stops the test where another one is found.
fn expect_stated(rt: &impl Abort, alloc: Global, steps: usize, state: &str) -> Result<Store, Fail> {
    let mut store = moved(rt, alloc, area_of(rt, alloc, steps))?;
    let found = whole(rt, alloc, &mut store)?;
    assert_eq!(rt; found.as_str(), state);
    Ok(store)
}

#[test]
fn each_step_is_stated(rt: HostRuntime) -> Result<(), Fail> {
    let alloc = rt.alloc();
    let mut store = expect_stated(&rt, alloc, 0, BEGUN)?;
    let mut state = BEGUN;
    for (number, step) in STEPS.iter().enumerate() {
        store = expect_stated(&rt, alloc, number.saturating_add(1), step.state)?;
        state = step.state;
    }
    // At whatever moment the last opening is stopped.
    expect_moments(&rt, alloc, &store.disk, 0, state, state)
}

// The area of a table, and of so many versions that bring nothing.
fn versions(rt: &impl Abort, alloc: Global, count: u32) -> Vec<u8> {
    let mut area = Vec::new(alloc);
    put_run(rt, &mut area, 1);
    put_body(rt, &mut area, &[2, 1, b't', 1, 1, b'k', 0, 1, 1, b'v', 0]);
    for version in 0..count {
        let [a, b, c, d] = version.to_be_bytes();
        put_body(rt, &mut area, &[9, a, b, c, d, 0, 0]);
    }
    put(rt, &mut area, &[0]);
    area
}

const STATE: &str =
    "floor=0 newest=Some(99999) generation=1; views=0 epoch=0 oldest=0 totals=[0] base=None cumulatives=[]; files";

#[test]
fn a_hundred_thousand_versions_in_few_bytes(rt: HostRuntime) -> Result<(), Fail> {
    let alloc = rt.alloc();
    let area = versions(&rt, alloc, 100_000);
    let disk = MemDisk::new(
        alloc,
        area,
        Vec::new(alloc),
        Vec::new(alloc),
        Vec::new(alloc),
    );
    let Ok(store) = open(alloc, disk) else {
        return Err("not opened".into());
    };
    assert_eq!(rt; store.disk.journal_len(Area::Zero), 1_200_027);
    assert!(rt; store.disk.journal_len(Area::One) < 100);
    let Ok(opened) = read(alloc, store.disk) else {
        return Err("not read".into());
    };
    let state = shown(&rt, alloc, &opened.catalog)?;
    assert_eq!(rt; state.as_str(), STATE);
    Ok(())
}
