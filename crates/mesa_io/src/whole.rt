// A source read to its end, and bytes written whole.
ghost use Rattle.std.specs.Prelude.{◌≡◌, ◌<◌, ◌≤◌, ℕ, List, take, drop, length, vec_len, IfOk, IfErr, OnErr, OnOk, IfSome, Err};
ghost use Rattle.std.specs.Io.{ReadsAtMost};
ghost use Rattle.std.specs.Io.KnownBytes.{Appends, Consumes, IsAtEnd, ReadConsumes};
ghost use Rattle.mesa_io.specs.Causes.{HasCause, HasFaultCause};
ghost use Rattle.mesa_io.specs.Moves.{MovesOn};
ghost use Rattle.mesa_io.specs.declared.whole.ReadError.TheVariants as read_error;

use crate::{Sink, SinkFailed, Source, SourceFailed};
use std::alloc::{AllocError, Global};
use thiserror::Error;

/// Why a source wasn't read to its end.
#[derive(Clone, Copy, Debug, PartialEq, Eq, Error)]
pub enum ReadError {
    /// A call of the source failed.
    #[error("the source failed")]
    Fault,
    /// No call failed, and more bytes than this were left.
    #[error("the input is longer than {max} bytes")]
    TooLong { max: u64 },
    #[error("out of memory")]
    Memory,
}

/// The sink failed after this many of the bytes were written.
#[derive(Clone, Copy, Debug, PartialEq, Eq)]
pub struct SinkFault {
    pub written: u64,
}

// The room that the first read has, in bytes.
const FIRST_ROOM: usize = 65_536;

// Makes room behind the first `filled` bytes where there is none: as much again, at first a
// piece, but at most one byte past `max`.
fn make_room(bytes: &mut Vec<u8>, filled: usize, max: u64) -> Result<(), AllocError>
    requires within { filled ≤ vec_len bytes.old }
    requires few { filled ≤ max }
    ensures more { OnOk result (filled < vec_len bytes.new) }
    ensures same { OnOk result (take filled bytes.new.items ≡ take filled bytes.old.items) }
{
    if filled < bytes.len() {
        return Ok(());
    }
    let most = (max - filled as u64).saturating_add(1) as usize;
    match filled.checked_add(filled.max(FIRST_ROOM).min(most)) {
        Some(roomy) => bytes.resize(roomy, 0),
        None => Err(AllocError),
    }
}

// Takes bytes into the room behind the first `filled` ones, which stay.
fn take_behind<S: Source>(
    src: &mut S,
    bytes: &mut Vec<u8>,
    filled: usize,
) -> Result<usize, SourceFailed>
    requires { filled < vec_len bytes.old }
    ensures bound { ReadsAtMost result (drop filled bytes.new.items) }
    ensures bytes { ReadConsumes (S.left src.old) (S.left src.new) result (drop filled bytes.new.items) }
    ensures cause { HasCause (S.faults src.old) (S.faults src.new) result }
    ensures same { take filled bytes.new.items ≡ take filled bytes.old.items }
    ensures len { vec_len bytes.new ≡ vec_len bytes.old }
{
    src.take(&mut bytes[filled..])
}

/// All the bytes that are left, where they are at most `max`. They are read into one buffer
/// that grows, in calls of at least a byte, so `max` bounds the number of calls. After an error
/// the source has moved on by what was taken.
pub fn read_all<S: Source>(alloc: Global, src: &mut S, max: u64) -> Result<Vec<u8>, ReadError>
    ensures all { IfOk result (λ v. Consumes (S.left src.old) (S.left src.new) v.items) }
    ensures at_end { OnOk result (IsAtEnd (S.left src.new)) }
    ensures within { IfOk result (λ v. vec_len v ≤ max) }
    ensures limit { (m : ℕ) → result ≡ Err (read_error.TooLong m) → m ≡ max }
    ensures too_long { (m : ℕ) → result ≡ Err (read_error.TooLong m) → IfSome (S.left src.old) (λ xs. max < length xs) }
    ensures cause { HasFaultCause (λ e. e ≡ read_error.Fault) (S.faults src.old) (S.faults src.new) result }
    ensures moves { OnErr result (MovesOn (S.left src.old) (S.left src.new)) }
{
    let mut bytes = Vec::new(alloc);
    let mut filled = 0;
    'pieces: loop {
        let Ok(()) = make_room(&mut bytes, filled, max) else {
            return Err(ReadError::Memory);
        };
        match take_behind(src, &mut bytes, filled) {
            Err(SourceFailed) => return Err(ReadError::Fault),
            Ok(0) => {
                bytes.truncate(filled);
                return Ok(bytes);
            }
            Ok(count) => filled += count,
        }
        if filled as u64 > max {
            return Err(ReadError::TooLong { max });
        }
    }
}

/// Writes all the bytes, or the first of them until the sink fails. It takes no memory.
pub fn write_all<K: Sink>(sink: &mut K, bytes: &[u8]) -> Result<(), SinkFault>
    ensures ok { OnOk result (Appends (K.held sink.old) (K.held sink.new) bytes.now) }
    ensures not_all { IfErr result (λ e. e.written < length bytes.now) }
    ensures first { IfErr result (λ e. Appends (K.held sink.old) (K.held sink.new) (take e.written bytes.now)) }
    ensures cause { HasCause (K.faults sink.old) (K.faults sink.new) result }
{
    let mut at = 0;
    'pieces: while at < bytes.len() {
        match sink.put(&bytes[at..]) {
            Ok(count) => at += count,
            Err(SinkFailed) => return Err(SinkFault { written: at as u64 }),
        }
    }
    Ok(())
}
