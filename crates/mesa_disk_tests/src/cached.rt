// A file of two pages and a part of a third, read through a cache of its pages.
use crate::expected::expect_same;
use mesa_cache::Cached;
use mesa_disk::{ByteList, Disk, FileId, FileReader, MemDisk, MemReader};
use std::alloc::Global;
use std::process::Abort;

// The place and the count of the bytes that are read, and whether they are given.
type Read = (u64, usize, bool);

// Reads, of which some go to the file itself; one of those fails.
struct Case {
    name: &'static str,
    pages: usize,
    fails: u64,
    reads: [Read; 6],
}

static CASES: [Case; 5] = [
    Case {
        name: "over all pages",
        pages: 1,
        fails: 99,
        reads: [
            (0, 40_000, true),
            (16_383, 2, true),
            (39_999, 1, true),
            (40_000, 0, true),
            (10_000, 30_000, true),
            (16_384, 16_384, true),
        ],
    },
    Case {
        name: "the second page is read again after a fault",
        pages: 2,
        fails: 1,
        reads: [
            (5, 10, true),
            (16_380, 10, false),
            (16_380, 10, true),
            (16_384, 16_384, true),
            (0, 1, true),
            (16_384, 0, true),
        ],
    },
    Case {
        name: "one page is kept",
        pages: 1,
        fails: 2,
        reads: [
            (0, 10, true),
            (16_384, 10, true),
            (16_390, 4, true),
            (0, 10, false),
            (0, 10, true),
            (7, 10, true),
        ],
    },
    Case {
        name: "the page goes that was not used for longest",
        pages: 2,
        fails: 3,
        reads: [
            (0, 10, true),
            (20_000, 10, true),
            (5, 10, true),
            (35_000, 10, true),
            (0, 10, true),
            (20_000, 10, false),
        ],
    },
    Case {
        name: "a read over a page's end keeps no page, and goes on behind one that is kept",
        pages: 2,
        fails: 1,
        reads: [
            (0, 16_385, true),
            (16_384, 1, false),
            (5, 10, true),
            (0, 40_000, true),
            (0, 16_385, true),
            (16_390, 4, true),
        ],
    },
];

// Bytes that come again after 251, so that no two pages are alike.
fn content(rt: &impl Abort, alloc: Global) -> Vec<u8> {
    let bytes = (0..40_000_u32).map(|i| (i % 251) as u8).collect(alloc);
    bytes.expect(rt, "memory")
}

// A disk with a file of these bytes. The file's read of this number fails.
fn disk_of(rt: &impl Abort, alloc: Global, bytes: &[u8], fails: u64) -> MemDisk {
    let file = ByteList::from_bytes(alloc, bytes).expect(rt, "memory");
    let files = vec![in alloc; (FileId::of(5), file)].expect(rt, "memory");
    let none = Vec::new(alloc);
    let mut disk = MemDisk::new(alloc, Vec::new(alloc), Vec::new(alloc), files, none);
    disk.spoil_read(FileId::of(5), fails);
    disk
}

// That file, read through a cache.
fn cached(rt: &impl Abort, alloc: Global, bytes: &[u8], case: &Case) -> Cached<MemReader> {
    assert!(rt; case.pages >= 1);
    let mut disk = disk_of(rt, alloc, bytes, case.fails);
    let reader = disk.reader(FileId::of(5)).expect(rt, "a reader");
    match Cached::new(alloc, reader, case.pages) {
        Ok(cached) => cached,
        Err(_) => panic!(rt; "no memory"),
    }
}

fn expect_read<R: FileReader>(
    rt: &impl Abort,
    bytes: &[u8],
    buffer: &mut [u8],
    reader: &mut R,
    read: &Read,
    name: &str,
) {
    let (at, count, given) = *read;
    let start = at as usize;
    assert!(rt; start <= bytes.len() && count <= bytes.len() - start);
    assert!(rt; at <= reader.len() && count as u64 <= reader.len() - at);
    assert!(rt; count <= buffer.len());
    let into = &mut buffer[..count];
    let is_read = reader.read_at(at, into).is_ok();
    expect_same(rt, &is_read, &given, &(name, read));
    if given {
        expect_same(rt, &&*into, &&bytes[start..start + count], &(name, read));
    }
}

fn expect_reads<R: FileReader>(
    rt: &impl Abort,
    bytes: &[u8],
    buffer: &mut [u8],
    reader: &mut R,
    case: &Case,
) {
    for read in &case.reads {
        expect_read(rt, bytes, buffer, reader, read, case.name);
    }
}

fn expect_case(rt: &impl Abort, alloc: Global, bytes: &[u8], case: &Case) {
    let mut buffer = vec![in alloc; 0u8; bytes.len()].expect(rt, "memory");
    let mut reader = cached(rt, alloc, bytes, case);
    expect_reads(rt, bytes, &mut buffer, &mut reader, case);
    let inner = reader.into_inner();
    assert_eq!(rt; inner.len(), 40_000);
}

#[test]
fn pages_are_read_and_kept(rt: HostRuntime) {
    let bytes = content(&rt, rt.alloc());
    for case in &CASES {
        expect_case(&rt, rt.alloc(), &bytes, case);
    }
}
