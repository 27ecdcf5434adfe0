// Bytes that are written again.
ghost use Rattle.std.specs.Prelude.{◌≡◌, ◌<◌, ◌≤◌, length, IfOk, OnOk};
ghost use Rattle.mesa_dir.specs.Opening.{IsPiece, WrittenAgain};

use mesa_os::System;
use std::io;

// How many of the bytes that are left a buffer of this length takes.
fn taken(left: u64, room: usize) -> usize
    requires some { 0 < left }
    requires room { 0 < room }
    ensures some { 0 < result }
    ensures left { result ≤ left }
    ensures room { result ≤ room }
{
    match usize::try_from(left) {
        Ok(left) => left.min(room),
        Err(_) => room,
    }
}

// Writes bytes of a file over themselves, from this place on, as many as the buffer takes of those left.
// Returns how many.
fn write_piece_again<S: System>(
    system: S,
    file: &mut S::Handle,
    at: u64,
    left: u64,
    buffer: &mut [u8],
) -> io::Result<u64>
    requires some { 0 < left }
    requires room { 0 < length buffer.old }
    ensures piece { IfOk result (λ n. IsPiece at n (S.calls file.old) (S.calls file.new)) }
    ensures some { IfOk result (λ n. 0 < n) }
    ensures left { IfOk result (λ n. n ≤ left) }
{
    let count = taken(left, buffer.len());
    let piece = &mut buffer[..count];
    system.read_at(file, at, piece)?;
    system.write_at(file, at, piece)?;
    Ok(count as u64)
}

/// Writes a file's bytes over themselves, of which there are so many, in pieces as long as the buffer.
pub(crate) fn write_again<S: System>(
    system: S,
    file: &mut S::Handle,
    len: u64,
    buffer: &mut [u8],
) -> io::Result<()>
    requires { 0 < length buffer.old }
    ensures { OnOk result (WrittenAgain (S.calls file.old) len (S.calls file.new)) }
{
    let mut at = 0u64;
    'pieces: while at < len {
        at += write_piece_again(system, file, at, len - at, buffer)?;
    }
    Ok(())
}
