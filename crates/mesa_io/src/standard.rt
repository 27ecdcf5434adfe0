// The edge: a source and a sink over any reader and writer of std, as standard input and output.
use crate::{FaultCount, Sink, SinkFailed, Source, SourceFailed};
use std::io::{Read, Write};

/// A source over a reader, which tells the bytes that the reader tells. A read that a signal
/// interrupts is a fault like any other: nothing is tried again.
#[derive(Drop)]
pub struct StdSource<R> {
    inner: R,
    faults: FaultCount,
}

/// A sink over a writer, which tells the bytes that the writer tells. It holds nothing back: what it
/// took, the writer has. A writer that takes nothing of a piece has failed.
#[derive(Drop)]
pub struct StdSink<W> {
    inner: W,
    faults: FaultCount,
}

impl<R: Read> StdSource<R> {
    ghost use Rattle.mesa_io.specs.Standard.{source_faults, source_reader};
    ghost use Rattle.std.specs.Prelude.{◌≡◌};

    /// A source of what the reader gives.
    pub fn new(inner: R) -> Self
        ensures reader { source_reader result ≡ inner }
        ensures faults { source_faults result ≡ 0 }
    {
        StdSource {
            inner,
            faults: FaultCount::new(),
        }
    }
}

impl<R: Read> Source for StdSource<R> {
    ghost left = { λ s. R.remaining s.inner };

    ghost faults = { λ s. s.faults };

    fn take(&mut self, buf: &mut [u8]) -> Result<usize, SourceFailed> {
        match self.inner.read(buf) {
            Ok(count) => Ok(count),
            Err(_) => {
                self.faults.rise();
                Err(SourceFailed)
            }
        }
    }
}

impl<W: Write> StdSink<W> {
    ghost use Rattle.mesa_io.specs.Standard.{sink_faults, sink_writer};
    ghost use Rattle.std.specs.Prelude.{◌≡◌};

    /// A sink that writes to the writer.
    pub fn new(inner: W) -> Self
        ensures writer { sink_writer result ≡ inner }
        ensures faults { sink_faults result ≡ 0 }
    {
        StdSink {
            inner,
            faults: FaultCount::new(),
        }
    }
}

impl<W: Write> Sink for StdSink<W> {
    ghost held = { λ s. W.contents s.inner };

    ghost faults = { λ s. s.faults };

    fn put(&mut self, piece: &[u8]) -> Result<usize, SinkFailed> {
        match self.inner.write(piece) {
            Ok(count) if count > 0 || piece.is_empty() => Ok(count),
            _ => {
                self.faults.rise();
                Err(SinkFailed)
            }
        }
    }
}
