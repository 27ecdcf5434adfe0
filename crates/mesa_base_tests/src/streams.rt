// Sources that are read to their end, and sinks that are written to.
use crate::expected::expect_same;
use mesa_io::{MemSink, MemSource, ReadError, SinkFault, StdSink, StdSource, read_all, write_all};
use std::alloc::Global;
use std::process::Abort;

// The bytes 1, 2 and 3, read whole where they are at most so many; this call of the source fails.
fn read(rt: &impl Abort, alloc: Global, fails: &[u64], most: u64) -> Result<Vec<u8>, ReadError> {
    let bytes = [1u8, 2, 3].to_vec(alloc).expect(rt, "memory");
    let fails = fails.to_vec(alloc).expect(rt, "memory");
    read_all(alloc, &mut MemSource::new(bytes, fails), most)
}

#[test]
fn reads_to_the_end(rt: HostRuntime) {
    let bytes = read(&rt, rt.alloc(), &[], 3).expect(&rt, "bytes");
    expect_same(
        &rt,
        &bytes.as_slice(),
        &[1u8, 2, 3].as_slice(),
        &"the bytes",
    );
}

// The call that fails, how many bytes may be read at most, and why they aren't read.
static FAULTS: [(&[u64], u64, ReadError); 2] = [
    (&[], 2, ReadError::TooLong { max: 2 }),
    (&[1], 3, ReadError::Fault),
];

#[test]
fn tells_why_a_source_is_not_read(rt: HostRuntime) {
    for (fails, most, want) in &FAULTS {
        let found = read(&rt, rt.alloc(), fails, *most).err();
        expect_same(&rt, &found, &Some(*want), fails);
    }
}

// The second call of the sink fails.
#[test]
fn writes_whole(rt: HostRuntime) {
    let fails = [1u64].to_vec(rt.alloc()).expect(&rt, "memory");
    let mut sink = MemSink::new(rt.alloc(), fails);
    assert!(rt; write_all(&mut sink, b"ab").is_ok());
    expect_same(
        &rt,
        &write_all(&mut sink, b"cd"),
        &Err(SinkFault { written: 0 }),
        &"write_all(&mut sink, b\"cd\")",
    );
    expect_same(&rt, &sink.bytes(), &b"ab".as_slice(), &"what the sink has");
}

#[test]
fn passes_on_a_reader_and_a_writer(rt: HostRuntime) {
    let alloc = rt.alloc();
    let mut src = StdSource::new(b"abc".as_slice());
    let bytes = read_all(alloc, &mut src, 3).expect(&rt, "bytes");
    let mut sink = StdSink::new(Vec::new(alloc));
    assert!(rt; write_all(&mut sink, &bytes).is_ok());
}
