// What is to be put on a draft, held in memory.
ghost use Rattle.std.specs.Prelude.{◌≡◌, [], OnOk};

use mesa_disk::{Draft, DraftError, Made};
use std::marker::PhantomData;
use std::snapshot::Snapshot;

/// The bytes that come next on a draft, in memory. So a writer over it calls no device, and its calls fail for want of memory alone: it may write beside threads that read, and no fault of a draft is met beside a failed read.
#[derive(Drop)]
pub(crate) struct Held<M, D> {
    pub(crate) bytes: Vec<u8>,
    /// The draft, with all bytes before these.
    pub(crate) sent: Snapshot<D>,
    made: PhantomData<M>,
}

impl<M: Made, D: Draft<M>> Held<M, D> {
    ghost use Rattle.mesa_split.specs.Held.{held_bytes, sent_bytes};

    /// Nothing yet for this draft, with room in an empty list.
    pub fn of(room: Vec<u8>, draft: &D) -> Held<M, D>
        requires { room.items ≡ [] }
        ensures bytes { held_bytes D.bytes result ≡ D.bytes draft.now }
        ensures sent { sent_bytes D.bytes result ≡ D.bytes draft.now }
    {
        Held {
            bytes: room,
            sent: Snapshot::of(draft),
            made: PhantomData,
        }
    }
}

impl<M: Made, D: Draft<M>> Draft<M> for Held<M, D> {
    ghost use Rattle.mesa_split.specs.Held.{held_bytes, held_faults, sent_number};

    ghost id_of = { sent_number D.bytes };

    ghost bytes = { held_bytes D.bytes };

    ghost faults = { held_faults };

    fn append(&mut self, piece: &[u8]) -> Result<(), DraftError> {
        if self.bytes.extend_from_slice(piece).is_err() {
            return Err(DraftError::Memory);
        }
        Ok(())
    }

    // There is no file of what is held alone: a writer is finished over the draft itself.
    fn finish(self) -> Result<M, (DraftError, Self)> {
        Err((DraftError::Memory, self))
    }
}
