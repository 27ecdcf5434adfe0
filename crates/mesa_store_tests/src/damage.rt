// What is told of a store that is damaged, and what becomes of its journal.
use crate::shown::area_of;
use crate::spelled::FIRST_FILE;
use crate::store::open;
use mesa_disk::{ByteList, FileId, MemDisk};
use mesa_recover::OpenError;
use std::alloc::Global;
use std::process::Abort;
use std::test::Fail;

/// A store that is opened.
struct Case {
    name: &'static str,
    /// Area 0, in digits.
    area: &'static str,
    /// The first file of run 1, if there is one.
    file: &'static str,
    /// Why it isn't opened.
    told: &'static str,
    /// Area 0 afterwards.
    after: &'static str,
}

// The journal of a table of an int key and a sum, with the row 1,5 in version 0 and nothing in version 1.
const ONE_ROW_AREA: &str =
    "01000000050100000001010000000b02017401016b000101760001000000700500000000000100000000000000000100000000000000000000000067000000000000000100000001000880000000000000010008800000000000000101000000000000000560845b21d56050bcccbfbef5313b8190744ac8bbd75fad7200d951fe1268d3930001000000000000000501000000070500000001000000";

// Its file.
const ONE_ROW_FILE: &str =
    "0000018000000000000001000000000000000580000000000000010000000000000000000000000000000000000013cb43fefe3754e6c6547db5d4ef40d734649323eb54dab57d202f18edb41a1efe000000000000000000010000000101014d455341444c5431";

static CASES: [Case; 14] = [
    Case {
        name: "a record cut short behind a shut gate",
        area: "0100000005010000000102000000050100",
        file: "",
        told: "None",
        after: "010000000501000000010100000005010000000200",
    },
    Case {
        name: "a record cut short",
        area: "0100000005010000000101000000050100",
        file: "",
        told: "Some(Journal { area: 0, at: 10, want: Length(21), found: Length(17) })",
        after: "0100000005010000000101000000050100",
    },
    Case {
        name: "a first run with the number 2",
        area: "0100000005010000000200",
        file: "",
        told: "Some(Journal { area: 0, at: 0, want: Fits, found: Misfit(0) })",
        after: "0100000005010000000200",
    },
    Case {
        name: "a byte behind a run",
        area: "01000000050100000001010000000601000000020700",
        file: "",
        told: "Some(Journal { area: 0, at: 10, want: Fits, found: Misfit(5) })",
        after: "01000000050100000001010000000601000000020700",
    },
    Case {
        name: "a record of no kind",
        area: "01000000010000",
        file: "",
        told: "Some(Journal { area: 0, at: 0, want: Fits, found: Misfit(0) })",
        after: "01000000010000",
    },
    Case {
        name: "an oldest version before any",
        area: "010000000501000000010100000005070000000000",
        file: "",
        told: "Some(Journal { area: 0, at: 10, want: Fits, found: Misfit(0) })",
        after: "010000000501000000010100000005070000000000",
    },
    Case {
        name: "an oldest version of no table",
        area: "0100000005010000000101000000070c00000000000000",
        file: "",
        told: "Some(Journal { area: 0, at: 10, want: Fits, found: Misfit(0) })",
        after: "0100000005010000000101000000070c00000000000000",
    },
    Case {
        name: "a record cut short behind one that does not fit",
        area: "0100000005010000000201000000050100",
        file: "",
        told: "Some(Journal { area: 0, at: 10, want: Length(21), found: Length(17) })",
        after: "0100000005010000000201000000050100",
    },
    Case {
        name: "a file",
        area: ONE_ROW_AREA,
        file: ONE_ROW_FILE,
        told: "None",
        after: "01000000050100000001010000000b02017401016b000101760001000000700500000000000100000000000000000100000000000000000000000067000000000000000100000001000880000000000000010008800000000000000101000000000000000560845b21d56050bcccbfbef5313b8190744ac8bbd75fad7200d951fe1268d393000100000000000000050100000007050000000100000100000005010000000200",
    },
    Case {
        name: "a file with another block",
        area: ONE_ROW_AREA,
        file: "0000018000000000000001000000000000000680000000000000010000000000000000000000000000000000000013cb43fefe3754e6c6547db5d4ef40d734649323eb54dab57d202f18edb41a1efe000000000000000000010000000101014d455341444c5431",
        told: "None",
        after: "01000000050100000001010000000b02017401016b000101760001000000700500000000000100000000000000000100000000000000000000000067000000000000000100000001000880000000000000010008800000000000000101000000000000000560845b21d56050bcccbfbef5313b8190744ac8bbd75fad7200d951fe1268d393000100000000000000050100000007050000000100000100000005010000000200",
    },
    Case {
        name: "a file cut by one byte",
        area: ONE_ROW_AREA,
        file: "0000018000000000000001000000000000000580000000000000010000000000000000000000000000000000000013cb43fefe3754e6c6547db5d4ef40d734649323eb54dab57d202f18edb41a1efe000000000000000000010000000101014d455341444c54",
        told: "Some(File(Damage { file: FileId(1099511627776), place: 0, want: Length(103), found: Length(102) }))",
        after: ONE_ROW_AREA,
    },
    Case {
        name: "a file with a byte more",
        area: ONE_ROW_AREA,
        file: "0000018000000000000001000000000000000580000000000000010000000000000000000000000000000000000013cb43fefe3754e6c6547db5d4ef40d734649323eb54dab57d202f18edb41a1efe000000000000000000010000000101014d455341444c543100",
        told: "Some(File(Damage { file: FileId(1099511627776), place: 0, want: Length(103), found: Length(104) }))",
        after: ONE_ROW_AREA,
    },
    Case {
        name: "no file",
        area: ONE_ROW_AREA,
        file: "",
        told: "Some(File(Damage { file: FileId(1099511627776), place: 0, want: Length(103), found: Absent }))",
        after: ONE_ROW_AREA,
    },
    Case {
        name: "a file with another tail",
        area: ONE_ROW_AREA,
        file: "0000018000000000000001000000000000000580000000000000010000000000000000000000000000000000000013cb43fefe3754e6c6547db5d4ef40d734649323eb54dab57d202f18edb41a1efe000000000000000000010000000101014d455341444c5430",
        told: "Some(File(Damage { file: FileId(1099511627776), place: 19, want: Digest([96, 132, 91, 33, 213, 96, 80, 188, 204, 191, 190, 245, 49, 59, 129, 144, 116, 74, 200, 187, 215, 95, 173, 114, 0, 217, 81, 254, 18, 104, 211, 147]), found: Digest([44, 20, 212, 179, 79, 11, 244, 32, 50, 4, 26, 194, 14, 74, 228, 57, 85, 171, 206, 66, 188, 86, 250, 18, 31, 174, 232, 161, 147, 24, 81, 178]) }))",
        after: ONE_ROW_AREA,
    },
];

// The bytes that digits spell.
fn bytes_of(rt: &impl Abort, alloc: Global, digits: &str) -> Vec<u8> {
    hex::decode(alloc, digits.as_bytes()).expect(rt, "digits")
}

// The file of a case.
fn files_of(rt: &impl Abort, alloc: Global, digits: &str) -> Vec<(FileId, ByteList)> {
    let mut files = Vec::new(alloc);
    if !digits.is_empty() {
        let bytes = ByteList::from_vec(bytes_of(rt, alloc, digits));
        files
            .push((FileId::of(FIRST_FILE), bytes))
            .expect(rt, "room");
    }
    files
}

// The disk of a case, of which these calls fail.
fn disk_of(rt: &impl Abort, alloc: Global, case: &Case, fails: &[u64]) -> MemDisk {
    let fails = fails.to_vec(alloc).expect(rt, "room");
    let area = bytes_of(rt, alloc, case.area);
    let files = files_of(rt, alloc, case.file);
    MemDisk::new(alloc, area, Vec::new(alloc), files, fails)
}

// Why a store isn't opened, and area 0.
fn ended(alloc: Global, error: Option<OpenError>, disk: &mut MemDisk) -> Result<String, Fail> {
    let area = area_of(alloc, disk)?;
    Ok(format!(in alloc; "{error:?}; {area}")?)
}

// What comes of opening a disk's store.
fn opened(alloc: Global, disk: MemDisk) -> Result<String, Fail> {
    match open(alloc, disk) {
        Ok(mut store) => ended(alloc, None, &mut store.disk),
        Err((error, mut disk)) => ended(alloc, Some(error), &mut disk),
    }
}

fn expect_case(rt: &impl Abort, alloc: Global, case: &Case) -> Result<(), Fail> {
    let found = opened(alloc, disk_of(rt, alloc, case, &[]))?;
    let want = format!(in alloc; "{}; {}", case.told, case.after)?;
    assert_eq!(rt; found.as_str(), want.as_str(), "{}", case.name);
    Ok(())
}

#[test]
fn damage_is_told(rt: HostRuntime) -> Result<(), Fail> {
    for case in &CASES {
        expect_case(&rt, rt.alloc(), case)?;
    }
    Ok(())
}

// The same disk, of which a call fails: nothing is written.
fn expect_fault(rt: &impl Abort, alloc: Global, case: &Case, call: u64) -> Result<(), Fail> {
    let found = opened(alloc, disk_of(rt, alloc, case, &[call]))?;
    let want = format!(in alloc; "Some(Fault); {}", case.area)?;
    assert_eq!(rt; found.as_str(), want.as_str(), "call {call}");
    Ok(())
}

// The calls are the read of the journal, the list of the files and a sync.
#[test]
fn a_disk_that_fails_is_given_back(rt: HostRuntime) -> Result<(), Fail> {
    for call in 0..3_u64 {
        expect_fault(&rt, rt.alloc(), &CASES[0], call)?;
    }
    Ok(())
}
