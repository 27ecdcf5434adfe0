// A source and a sink in memory, whose calls fail by number.
ghost use Rattle.std.specs.Prelude.{◌≡◌, ◌↔◌, [], ◌++◌, ◌+◌, ℕ, length, min, IsErr, OnErr, OnOk, IfOk, Contains};
ghost use Rattle.std.specs.Io.{ReadsAtMost, WritesAtMost};
ghost use Rattle.std.specs.Io.KnownBytes.{ReadConsumes, WriteAppends};
ghost use Rattle.mesa_io.specs.Causes.{HasCause, last};

use crate::{FaultCount, Sink, SinkFailed, Source, SourceFailed};
use std::alloc::Global;
use std::marker::Model;

/// Gives the bytes that it was made with. The calls whose numbers, from 0, are listed fail.
#[derive(Drop)]
pub struct MemSource {
    bytes: Vec<u8>,
    at: usize,
    fails: Vec<u64>,
    calls: u64,
    faults: FaultCount,
}

impl Model for MemSource {
    ghost use Rattle.std.specs.Prelude.{◌≤◌, drop, vec_len};
    ghost use Rattle.mesa_io.specs.Memory.{SourceState};

    ghost Value = { SourceState };

    ghost view = { λ s. record { left = drop s.at s.bytes.items; fails = s.fails.items; calls = s.calls; faults = s.faults } };

    ghost invariant = { λ s. s.at ≤ vec_len s.bytes };
}

/// Keeps what it is given. The calls whose numbers, from 0, are listed fail, and so does one
/// that finds no memory.
#[derive(Drop)]
pub struct MemSink {
    bytes: Vec<u8>,
    fails: Vec<u64>,
    calls: u64,
    faults: FaultCount,
}

impl Model for MemSink {
    ghost use Rattle.mesa_io.specs.Memory.{SinkState};

    ghost Value = { SinkState };

    ghost view = { λ s. record { held = s.bytes.items; fails = s.fails.items; calls = s.calls; faults = s.faults } };
}

impl MemSource {
    /// A source of these bytes, in which the calls with these numbers fail.
    pub fn new(bytes: Vec<u8>, fails: Vec<u64>) -> Self
        ensures left { result.left ≡ bytes.items }
        ensures fails { result.fails ≡ fails.items }
        ensures calls { result.calls ≡ 0 }
        ensures faults { result.faults ≡ 0 }
    {
        MemSource {
            bytes,
            at: 0,
            fails,
            calls: 0,
            faults: FaultCount::new(),
        }
    }
}

impl Source for MemSource {
    ghost use Rattle.std.specs.Prelude.{Some};

    ghost left = { λ s. Some s.left };

    ghost faults = { λ s. s.faults };

    fn take(&mut self, buf: &mut [u8]) -> Result<usize, SourceFailed>
        ensures bound { ReadsAtMost result buf.new }
        ensures bytes { ReadConsumes (Some self.old.left) (Some self.new.left) result buf.new }
        ensures cause { HasCause self.old.faults self.new.faults result }
        ensures fails { IsErr result ↔ Contains self.old.fails self.old.calls }
        ensures full { IfOk result (λ k. k ≡ min (length self.old.left) (length buf.new)) }
        ensures same { self.new.fails ≡ self.old.fails }
        ensures calls { self.new.calls ≡ min (self.old.calls + 1) last }
    {
        let number = self.calls;
        self.calls = number.saturating_add(1);
        if self.fails.contains(&number) {
            self.faults.rise();
            return Err(SourceFailed);
        }
        let rest = &self.bytes[self.at..];
        let count = rest.len().min(buf.len());
        let (front, _) = rest.split_at(count);
        let into = &mut buf[..count];
        into.copy_from_slice(front);
        self.at += count;
        Ok(count)
    }
}

impl MemSink {
    /// An empty sink, in which the calls with these numbers fail.
    pub fn new(alloc: Global, fails: Vec<u64>) -> Self
        ensures held { result.held ≡ [] }
        ensures fails { result.fails ≡ fails.items }
        ensures calls { result.calls ≡ 0 }
        ensures faults { result.faults ≡ 0 }
    {
        MemSink {
            bytes: Vec::new(alloc),
            fails,
            calls: 0,
            faults: FaultCount::new(),
        }
    }

    /// The bytes that it was given.
    pub fn bytes(&self) -> &[u8]
        ensures { result.now ≡ self.now.held }
    {
        &self.bytes
    }
}

impl Sink for MemSink {
    ghost use Rattle.std.specs.Prelude.{Some};

    ghost held = { λ s. Some s.held };

    ghost faults = { λ s. s.faults };

    fn put(&mut self, piece: &[u8]) -> Result<usize, SinkFailed>
        ensures bound { WritesAtMost result piece.now }
        ensures some { IfOk result (λ k. k ≡ 0 → piece.now ≡ []) }
        ensures bytes { WriteAppends (Some self.old.held) (Some self.new.held) result piece.now }
        ensures cause { HasCause self.old.faults self.new.faults result }
        ensures fails { Contains self.old.fails self.old.calls → IsErr result }
        ensures whole { IfOk result (λ k. k ≡ length piece.now) }
        ensures same { self.new.fails ≡ self.old.fails }
        ensures calls { self.new.calls ≡ min (self.old.calls + 1) last }
    {
        let number = self.calls;
        self.calls = number.saturating_add(1);
        if self.fails.contains(&number) || self.bytes.extend_from_slice(piece).is_err() {
            self.faults.rise();
            return Err(SinkFailed);
        }
        Ok(piece.len())
    }
}
