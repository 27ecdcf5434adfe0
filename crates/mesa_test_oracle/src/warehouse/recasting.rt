// Tables that are recast.
ghost use Rattle.std.specs.Prelude.{◌≡◌, Ok, IfOk, IfErr, OnErr};
ghost use Rattle.mesa_model.specs.Step.{done_or_refused};
ghost use Rattle.mesa_model.specs.Tables.{recast_table};
ghost use Rattle.mesa_binding.specs.Told.{IsDue};

use super::PlainWarehouse;
use mesa_binding::{Failure, recast_asked};
use mesa_list::TryCopy;
use mesa_model::{RecastWords, Refusal, Reply};
use std::alloc::AllocError;

impl PlainWarehouse {
    /// Recasts a table; its rows at each version are grouped. Pins keep theirs.
    pub fn recast(&mut self, words: &RecastWords) -> Result<Reply, AllocError>
        ensures done { IfOk result (λ reply. done_or_refused self.old (recast_table self.old words.now) ≡ (self.new, reply)) }
        ensures kept { OnErr result (self.new ≡ self.old) }
    {
        match self.try_recast(words) {
            Ok(reply) => Ok(reply),
            Err(Failure::Refused(refusal)) => Ok(Reply::Refused(refusal)),
            Err(Failure::Memory) => Err(AllocError),
        }
    }

    fn try_recast(&mut self, words: &RecastWords) -> Result<Reply, Failure>
        ensures done { IfOk result (λ reply. recast_table self.old words.now ≡ Ok (self.new, reply)) }
        ensures refused { IfErr result (IsDue (recast_table self.old words.now)) }
        ensures kept { OnErr result (self.new ≡ self.old) }
    {
        let Some(number) = self.store.number(words.table.as_slice()) else {
            return Err(Failure::Refused(Refusal::NoTable { row: None }));
        };
        let table = self.store.name(number).copy()?;
        let evolving = self.store.evolving(number);
        let epoch = evolving.epoch() + 1;
        let names = recast_asked(self.alloc, evolving, words)?;
        self.store.recast(self.alloc, number, names)?;
        Ok(Reply::Recast { table, epoch })
    }
}
