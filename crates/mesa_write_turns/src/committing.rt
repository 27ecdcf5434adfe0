// A record written with its files, and the vault's memory behind it.
ghost use Rattle.std.specs.Prelude.{◌≡◌, ◌+◌, ◌<◌, ◌^◌, true, false, length, None, Some, OnErr, OnOk};
ghost use Rattle.mesa_disk.specs.Files.{AreAbsent, HasDistinctIds, files_of};
ghost use Rattle.mesa_disk.specs.Image.{Image};
ghost use Rattle.mesa_engine.specs.mesa_catalog.Lookups.{turns_generation};
ghost use Rattle.mesa_engine.specs.mesa_invariant_spec.Invariant.{Counts};
ghost use Rattle.mesa_engine.specs.Memory.{HasRoomFor, with_state};
ghost use Rattle.mesa_engine.specs.Recorded.{failed_state};
ghost use Rattle.mesa_write_turns.specs.Committing.{IsWhole, IsWorked, committed_state, gone_in, removed_in};

use mesa_disk::{Adoption, Disk, DiskFailed, FileId, Made};
use mesa_engine::Metadata;
use mesa_journal::Framed;
use mesa_record::Record;
use mesa_store::write_record;

/// What a turn writes, once all memory that it takes is taken: its record with its frame, the files that it adopts,
/// and how many the run has adopted with them.
#[derive(Drop)]
pub struct Staged<M: Drop> {
    pub entry: Record,
    pub framed: Framed,
    pub made: Vec<Adoption<M>>,
    pub adopted: u64,
}

/// The files that a turn's record lets go, and those that the turn removes.
#[derive(Drop)]
pub struct Drops {
    pub gone: Vec<FileId>,
    pub removed: Vec<FileId>,
}

fn removed(drops: &Option<Drops>) -> &[FileId]
    ensures { result.now ≡ removed_in drops.now }
{
    match drops {
        Some(drops) => &drops.removed,
        None => &[],
    }
}

/// Writes the record of the turn at a position, with its files, and only then changes the memory. Where the store
/// can't be written the vault closes. Takes no memory. Where nothing may be dropped, files that wait wait still.
pub fn commit<M: Made, D: Disk<M>>(
    disk: &mut D,
    metadata: &mut Metadata,
    at: u64,
    staged: Staged<M>,
    drops: Option<Drops>,
) -> Result<(), DiskFailed>
    requires reserved { HasRoomFor staged.entry (length (gone_in drops)) metadata.old.reserved }
    requires few { staged.adopted < 2 ^ 40 }
    requires distinct { HasDistinctIds (files_of M.bytes staged.made.items) }
    requires new { (i : Image) → (D.story disk.old).told ≡ Some i → AreAbsent (files_of M.bytes staged.made.items) i }
    requires room { metadata.old.state.end < (D.story disk.old).len metadata.old.state.area }

    // Whatever it answers, at each moment an image stands for the store before the record or after it.
    ensures worked { IsWorked (D.story disk.old) (D.story disk.new) metadata.old.state.area metadata.old.state.end staged.framed (files_of M.bytes staged.made.items) (removed_in drops) }
    ensures counted { OnErr result (Counts (D.story disk.old) (D.story disk.new) true) }
    ensures quiet { OnOk result (Counts (D.story disk.old) (D.story disk.new) false) }

    // The disk and the memory have the record; or the vault is closed.
    ensures whole { OnOk result (IsWhole (D.story disk.old) (D.story disk.new) metadata.old.state.area metadata.old.state.end staged.framed (files_of M.bytes staged.made.items) (removed_in drops) metadata.new.state.end) }
    ensures applied { OnOk result (metadata.new ≡ record metadata.old {
      state = committed_state metadata.old.state at staged.entry drops staged.adopted metadata.new.state.end;
      reserved = None;
    }) }
    ensures generation { OnOk result (metadata.new.state.generation ≡ metadata.old.state.generation + turns_generation staged.entry) }
    ensures closed { OnErr result (metadata.new ≡ with_state (failed_state metadata.old.state at metadata.old.state.leases staged.adopted) metadata.old) }
{
    let Staged {
        entry,
        framed,
        made,
        adopted,
    } = staged;
    let area = metadata.area();
    let end = metadata.end();
    match write_record(disk, area, made, end, &framed, removed(&drops)) {
        Ok(end) => match &drops {
            Some(drops) => {
                metadata.apply_swap(entry, at, &drops.gone, adopted, end);
                Ok(())
            }
            None => {
                metadata.apply(entry, adopted, end);
                Ok(())
            }
        },
        Err(failed) => {
            drop(entry);
            metadata.fail(at, adopted);
            Err(failed)
        }
    }
}
