// The record of a turn: memory first, then a change that takes none and can't fail.
ghost use Rattle.std.specs.Prelude.{◌≡◌, ◌+◌, ◌<◌, ◌^◌, length, IsTrue, IfOk, OnErr, OnOk, None, Some};
ghost use Rattle.mesa_catalog.specs.mesa_store_spec.Catalog.{applied};
ghost use Rattle.mesa_catalog.specs.mesa_store_spec.Fitting.{fits};
ghost use Rattle.mesa_catalog.specs.Lookups.{generation_of, turns_generation};
ghost use Rattle.mesa_engine.specs.Recorded.{failed_state, left_by, recorded_state, removed_by};
ghost use Rattle.mesa_engine.specs.Memory.{HasRoomFor, with_state};

use crate::Metadata;
use crate::trash::{drop_files, free_gone, free_trash, keep_held};
use mesa_file::FileId;
use mesa_record::Record;
use std::alloc::AllocError;

impl Metadata {
    /// Takes all memory that it takes to take in a record that drops so many files. Another record that was reserved for is forgotten.
    pub fn reserve(&mut self, r: &Record, dropped: usize) -> Result<(), AllocError>
        requires { IsTrue (fits self.old.state.catalogue r.now) }
        ensures reserved { OnOk result (self.new ≡ record self.old { reserved = Some (record { entry = r.now; dropped = dropped }) }) }
        ensures err { OnErr result (self.new ≡ self.old) }
    {
        self.trash.reserve(dropped)?;
        self.catalog.reserve(r)?;
        self.room = dropped;
        Ok(())
    }

    /// The ids of the files that the swap of a work, or a recast, may remove in the turn at the position once it drops these: no pin and no open query holds them.
    pub fn removable(&self, position: u64, gone: &[FileId]) -> Result<Vec<FileId>, AllocError>
        ensures { IfOk result (λ ids. ids.items ≡ removed_by self.now.state position gone.now) }
    {
        let mut ids = Vec::new(self.alloc);
        free_trash(&mut ids, &self.holders, &self.trash)?;
        free_gone(&mut ids, &self.holders, position, gone)?;
        Ok(ids)
    }

    /// Takes in the record of a turn that dropped no file and removed none. The run has then adopted so many files, and the journal's next body goes to `end`. Takes no memory.
    pub fn apply(&mut self, r: Record, adopted: u64, end: u64)
        requires room { HasRoomFor r 0 self.old.reserved }
        requires few { adopted < 2 ^ 40 }
        ensures applied { let later = applied self.old.state.catalogue r in
            self.new ≡ record self.old {
              state = recorded_state self.old.state later (generation_of later) self.old.state.trash self.old.state.leases adopted end;
              reserved = None;
            } }
        ensures generation { self.new.state.generation ≡ self.old.state.generation + turns_generation r }
    {
        self.catalog.apply(r);
        self.room = 0;
        self.adopted = adopted;
        self.end = end;
    }

    /// Takes in the record of a swap or of a recast, whose turn at the position dropped these files and removed what it could of the trash; else as `apply`.
    pub fn apply_swap(&mut self, r: Record, position: u64, gone: &[FileId], adopted: u64, end: u64)
        requires room { HasRoomFor r (length gone.now) self.old.reserved }
        requires few { adopted < 2 ^ 40 }
        ensures applied { let later = applied self.old.state.catalogue r in
            self.new ≡ record self.old {
              state = recorded_state self.old.state later (generation_of later) (left_by self.old.state position gone.now) self.old.state.leases adopted end;
              reserved = None;
            } }
        ensures generation { self.new.state.generation ≡ self.old.state.generation + turns_generation r }
    {
        drop_files(&mut self.trash, position, gone);
        keep_held(&mut self.trash, &self.holders);
        self.room = 0;
        self.apply(r, adopted, end);
    }

    /// Closes the vault in the turn at the position, whose device work failed: what it adopted is lost.
    pub fn fail(&mut self, position: u64, adopted: u64)
        requires { adopted < 2 ^ 40 }
        ensures { self.new ≡ with_state (failed_state self.old.state position self.old.state.leases adopted) self.old }
    {
        self.closed = Some(position);
        self.adopted = adopted;
    }
}
