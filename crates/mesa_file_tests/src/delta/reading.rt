// A file that was written by hand is read, and told damaged where it isn't the recorded one.
ghost use Rattle.std.specs.Prelude.{◌<◌};

use crate::delta::files::{
    ONE_DIGEST, ONE_FILE, ONE_ID, TWO_DIGEST, TWO_FILE, count_bytes, reference,
};
use crate::expected::expect_same;
use mesa_delta::FileError;
use mesa_disk::{Damage, FileId, Seen};
use mesa_key::{Format, KeyType};
use sha2::{Digest, Sha256};
use std::alloc::Global;
use std::process::Abort;

// Reads bytes by the reference of a file of one row with this digest.
fn read_by(
    rt: &impl Abort,
    alloc: Global,
    bytes: &[u8],
    fails: Option<u64>,
    digest: [u8; 32],
) -> Result<usize, FileError> {
    let bytes = Vec::from_slice(alloc, bytes).expect(rt, "memory");
    let file = reference(alloc, Format::One, 103, 1, 1, digest);
    count_bytes(rt, alloc, bytes, fails, &file, KeyType::Int)
}

// Stops the test of bytes that are read otherwise by the reference of the file of one row.
fn expect_read(
    rt: &impl Abort,
    alloc: Global,
    bytes: &[u8],
    fails: Option<u64>,
    wanted: Result<usize, FileError>,
) {
    let found = read_by(rt, alloc, bytes, fails, ONE_DIGEST);
    expect_same(rt, &found, &wanted, &fails);
}

fn damage(place: u64, want: Seen, found: Seen) -> Result<usize, FileError> {
    Err(FileError::Damaged(Damage {
        file: FileId::of(ONE_ID),
        place,
        want,
        found,
    }))
}

#[test]
fn reads_the_file_of_one_row(rt: HostRuntime) {
    expect_read(&rt, rt.alloc(), &ONE_FILE, None, Ok(1));
}

#[test]
fn tells_a_failed_read(rt: HostRuntime) {
    for nth in 0..2 {
        expect_read(&rt, rt.alloc(), &ONE_FILE, Some(nth), Err(FileError::Read));
    }
}

#[test]
fn tells_another_length(rt: HostRuntime) {
    let wanted = damage(0, Seen::Length(103), Seen::Length(102));
    expect_read(&rt, rt.alloc(), &ONE_FILE[..102], None, wanted);
}

// The file of one row with another byte at a place.
fn changed(place: usize, byte: u8) -> [u8; 103]
    requires { place < 103 }
{
    let mut bytes = ONE_FILE;
    bytes[place] = byte;
    bytes
}

#[test]
fn tells_a_changed_row(rt: HostRuntime) {
    let bytes = changed(18, 6);
    let mut digest = [0; 32];
    digest.copy_from_slice(&ONE_FILE[47..79]);
    let found = Seen::Digest(Sha256::digest(&bytes[..19]));
    let wanted = damage(0, Seen::Digest(digest), found);
    expect_read(&rt, rt.alloc(), &bytes, None, wanted);
}

#[test]
fn tells_a_changed_tail(rt: HostRuntime) {
    let bytes = changed(102, 50);
    let digest = Sha256::digest(&bytes[19..]);
    let wanted = damage(19, Seen::Digest(ONE_DIGEST), Seen::Digest(digest));
    expect_read(&rt, rt.alloc(), &bytes, None, wanted);
}

// The recorded digest is that of the bytes, which are no tail.
#[test]
fn tells_bytes_that_are_no_tail(rt: HostRuntime) {
    let bytes = changed(102, 50);
    let counted = read_by(&rt, rt.alloc(), &bytes, None, Sha256::digest(&bytes[19..]));
    expect_same(
        &rt,
        &counted,
        &damage(19, Seen::Fits, Seen::Misfit(0)),
        &"how many rows are counted",
    );
}

// How many rows the file of format 2 has, read by a reference of this format.
fn count_two(rt: &impl Abort, alloc: Global, format: Format) -> Result<usize, FileError> {
    let bytes = Vec::from_slice(alloc, &TWO_FILE).expect(rt, "memory");
    let file = reference(alloc, format, 111, 1, 1, TWO_DIGEST);
    count_bytes(rt, alloc, bytes, None, &file, KeyType::Int)
}

#[test]
fn reads_the_second_format(rt: HostRuntime) {
    let counted = count_two(&rt, rt.alloc(), Format::Two);
    expect_same(&rt, &counted, &Ok(1), &"how many rows are counted");
}

// The tail tells another format than the reference.
#[test]
fn tells_another_format(rt: HostRuntime) {
    let counted = count_two(&rt, rt.alloc(), Format::One);
    expect_same(
        &rt,
        &counted,
        &damage(27, Seen::Fits, Seen::Misfit(0)),
        &"how many rows are counted",
    );
}
