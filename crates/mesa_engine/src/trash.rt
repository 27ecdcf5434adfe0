// Files that wait to be removed, and which of them no hold is on.
ghost use Rattle.std.specs.Prelude.{◌≡◌, ◌+◌, ◌≤◌, ◌++◌, length, map, vec_capacity, vec_len, OnOk};
ghost use Rattle.mesa_commit.specs.Holding.{dropped_at, freed, ids_of, kept};
ghost use Rattle.mesa_engine.specs.Meaning.{AreIndexed, holds_by};

use crate::holders::Holders;
use mesa_commit::Dropped;
use mesa_file::FileId;
use std::alloc::AllocError;

// Adds the ids of the files of the trash that no hold is on.
pub(crate) fn free_trash(
    ids: &mut Vec<FileId>,
    holders: &Holders,
    trash: &[Dropped],
) -> Result<(), AllocError>
    requires { AreIndexed holders.now }
    ensures { OnOk result (ids.new.items ≡ ids.old.items ++ ids_of (freed (holds_by holders.now) trash.now)) }
{
    for dropped in trash {
        if !holders.hold(dropped) {
            ids.push(dropped.id)?;
        }
    }
    Ok(())
}

// Adds the ids of those files of a turn at the position that no hold is on.
pub(crate) fn free_gone(
    ids: &mut Vec<FileId>,
    holders: &Holders,
    position: u64,
    gone: &[FileId],
) -> Result<(), AllocError>
    requires { AreIndexed holders.now }
    ensures { OnOk result (ids.new.items ≡ ids.old.items ++ ids_of (freed (holds_by holders.now) (map (dropped_at position) gone.now))) }
{
    for id in gone {
        let dropped = Dropped {
            id: *id,
            at: position,
        };
        if !holders.hold(&dropped) {
            ids.push(*id)?;
        }
    }
    Ok(())
}

// Puts files into the trash that a turn at the position drops.
pub(crate) fn drop_files(trash: &mut Vec<Dropped>, position: u64, gone: &[FileId])
    requires { vec_len trash.old + length gone.now ≤ vec_capacity trash.old }
    ensures { trash.new.items ≡ trash.old.items ++ map (dropped_at position) gone.now }
{
    for id in gone {
        trash.push_reserved(Dropped {
            id: *id,
            at: position,
        });
    }
}

// Forgets the files that no hold is on, once they are removed.
pub(crate) fn keep_held(trash: &mut Vec<Dropped>, holders: &Holders)
    requires { AreIndexed holders.now }
    ensures { trash.new.items ≡ kept (holds_by holders.now) trash.old.items }
{
    trash.retain(|dropped| holders.hold(dropped));
}
