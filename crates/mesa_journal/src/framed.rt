ghost use Rattle.std.specs.Prelude.{◌≡◌, ◌^◌, ◌<◌, [], ◌∷◌, length, IfOk};
ghost use Rattle.mesa_disk.specs.mesa_key.Spelling.{AreBytes};
ghost use Rattle.mesa_journal.specs.Journal.{record_bytes};

use mesa_list::TryCopy;
use std::alloc::{AllocError, Global};
use std::marker::Model;

/// A body in its frame, as an append writes it: an open gate, the body's length, the body, and the next
/// gate, which is closed. Contracts see it as the body.
#[derive(Drop)]
pub struct Framed {
    frame: Vec<u8>,
}

impl Model for Framed {
    ghost use Rattle.std.specs.Prelude.{◌≡◌, ◌-◌, ◌<◌, ◌^◌, ◌∷◌, ℕ, List, length, take, drop};
    ghost use Rattle.mesa_disk.specs.mesa_key.Spelling.{AreBytes};
    ghost use Rattle.mesa_journal.specs.Journal.{body_of_frame, record_bytes};

    ghost Value = { List ℕ };

    ghost view = { λ f. body_of_frame f.frame.items };

    ghost invariant = { λ f. (f.frame.items ≡ 1 ∷ record_bytes (body_of_frame f.frame.items)) × (length (body_of_frame f.frame.items) < 2 ^ 32) × AreBytes (body_of_frame f.frame.items) };
}

impl Framed {
    /// The frame of a body. A body that is too long for its length field is answered as want of memory.
    pub fn new(alloc: Global, body: &[u8]) -> Result<Framed, AllocError>
        ensures { IfOk result (λ framed. framed ≡ body.now) }
    {
        let Ok(len) = u32::try_from(body.len()) else {
            return Err(AllocError);
        };
        let mut frame = Vec::with_capacity(alloc, body.len().saturating_add(6))?;
        frame.push(1)?;
        frame.extend_from_slice(&len.to_be_bytes())?;
        frame.extend_from_slice(body)?;
        frame.push(0)?;
        Ok(Framed { frame })
    }

    /// The open gate.
    pub(crate) fn gate(&self) -> &[u8]
        ensures { result.now ≡ 1 ∷ [] }
    {
        &self.frame()[..1]
    }

    /// What stands behind the gate.
    pub(crate) fn behind_gate(&self) -> &[u8]
        ensures bytes { result.now ≡ record_bytes self.now }
        ensures fits { length self.now < 2 ^ 32 }
        ensures body { AreBytes self.now }
    {
        &self.frame()[1..]
    }

    /// All of it.
    pub(crate) fn frame(&self) -> &[u8]
        ensures bytes { result.now ≡ 1 ∷ record_bytes self.now }
        ensures fits { length self.now < 2 ^ 32 }
        ensures body { AreBytes self.now }
    {
        &self.frame
    }
}

impl TryCopy for Framed {
    fn copy(&self) -> Result<Self, AllocError> {
        Ok(Framed {
            frame: self.frame.clone()?,
        })
    }
}
