// What a source and a sink are: their bytes, and a count of faults.
ghost use Rattle.std.specs.Prelude.{◌≡◌, ℕ, List, [], IfOk, Option};
ghost use Rattle.std.specs.Io.{ReadsAtMost, WritesAtMost};
ghost use Rattle.std.specs.Io.KnownBytes.{ReadConsumes, WriteAppends};
ghost use Rattle.mesa_io.specs.Causes.{HasCause};

/// A call on a source failed; nothing was taken.
#[derive(Clone, Copy, Debug, PartialEq, Eq)]
pub struct SourceFailed;

/// A call on a sink failed; nothing was appended.
#[derive(Clone, Copy, Debug, PartialEq, Eq)]
pub struct SinkFailed;

/// Where bytes come from.
pub trait Source {
    /// The bytes that are left, where the source tells them.
    ghost left: { Self → Option (List ℕ) };

    /// How often a call has failed. The count stays at its type's last value.
    ghost faults: { Self → ℕ };

    /// Takes the first bytes that are left, into the front of the buffer, and says how many.
    /// It takes none only at the end, or with no room.
    fn take(&mut self, buf: &mut [u8]) -> Result<usize, SourceFailed>
        ensures bound { ReadsAtMost result buf.new }
        ensures bytes { ReadConsumes (left self.old) (left self.new) result buf.new }
        ensures cause { HasCause (faults self.old) (faults self.new) result };
}

/// Where bytes go.
pub trait Sink {
    /// The bytes that it holds, where the sink tells them.
    ghost held: { Self → Option (List ℕ) };

    /// How often a call has failed. The count stays at its type's last value.
    ghost faults: { Self → ℕ };

    /// Appends the first bytes of the piece, at least one unless the piece is empty, and says
    /// how many.
    fn put(&mut self, piece: &[u8]) -> Result<usize, SinkFailed>
        ensures bound { WritesAtMost result piece.now }
        ensures some { IfOk result (λ k. k ≡ 0 → piece.now ≡ []) }
        ensures bytes { WriteAppends (held self.old) (held self.new) result piece.now }
        ensures cause { HasCause (faults self.old) (faults self.new) result };
}
