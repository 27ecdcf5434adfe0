// Drafts that fail one after another.
use crate::load::loads::{Session, VIEW_OF_A, expect_fault};
use mesa_open_files::LoadError;
use std::alloc::Global;
use std::process::Abort;
use std::thread::Threads;

// Each call of the two drafts of a table and its view: the making of the draft, an append of the block and of the
// tail, and the end.
static CALLS: [(u64, u64); 8] = [
    (0, 0),
    (0, 1),
    (0, 2),
    (0, 3),
    (1, 0),
    (1, 1),
    (1, 2),
    (1, 3),
];

static LOAD: &[u8] = b"t;1;3;1 t;1;4;-3";

// Prepares a load through a bench whose one call fails, and again.
fn fail_once<R: Abort + Threads + Sync>(rt: &R, alloc: Global, call: (u64, u64)) {
    let calls = vec![in alloc; call].expect(rt, "memory");
    let mut session = Session::new(alloc, calls);
    let failed = Some(LoadError::Draft);
    expect_fault(rt, alloc, &mut session, VIEW_OF_A, LOAD, failed);
    expect_fault(rt, alloc, &mut session, VIEW_OF_A, LOAD, None);
}

#[test]
fn each_failed_call_of_a_draft_is_told(rt: HostRuntime) {
    for call in &CALLS {
        fail_once(&rt, rt.alloc(), *call);
    }
}

#[test]
fn two_drafts_that_fail_are_told_as_one(rt: HostRuntime) {
    let calls = vec![in rt.alloc(); (0, 2), (1, 1)].expect(&rt, "memory");
    let mut session = Session::new(rt.alloc(), calls);
    let failed = Some(LoadError::Draft);
    expect_fault(&rt, rt.alloc(), &mut session, VIEW_OF_A, LOAD, failed);
}
