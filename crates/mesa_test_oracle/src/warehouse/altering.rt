// Schemas that are changed.
ghost use Rattle.std.specs.Prelude.{◌≡◌, ◌≢◌, ◌<◌, Ok, Err, IfOk, IfErr, OnOk, OnErr, length};
ghost use Rattle.mesa_oracle_tables.specs.mesa_columns.declared.changes.ChangeError.{ChangeError as WhyNot};
ghost use Rattle.mesa_oracle_tables.specs.mesa_columns.declared.changes.ChangeError.TheVariants as change_error;
ghost use Rattle.mesa_schema.specs.Changes.{change_checked};
ghost use Rattle.mesa_model.specs.Step.{done_or_refused};
ghost use Rattle.mesa_model.specs.Tables.{alter_table, changed_name as name_of};
ghost use Rattle.mesa_model.specs.Warehouse.{table_at};
ghost use Rattle.mesa_binding.specs.Told.{IsDue, change_failure as failure_of};
ghost use Rattle.mesa_oracle_tables.specs.Kept.{with_schema_changed};

use super::PlainWarehouse;
use mesa_binding::{Failure, change_asked, change_failure, changed_name};
use mesa_list::TryCopy;
use mesa_model::{AlterWords, Refusal, Reply};
use mesa_oracle_tables::PlainStore;
use mesa_schema::Change;
use std::alloc::{AllocError, Global};

impl PlainWarehouse {
    /// Changes a table's schema; its rows at each version are lifted. Pins keep theirs.
    pub fn alter(&mut self, words: &AlterWords) -> Result<Reply, AllocError>
        ensures done { IfOk result (λ reply. done_or_refused self.old (alter_table self.old words.now) ≡ (self.new, reply)) }
        ensures kept { OnErr result (self.new ≡ self.old) }
    {
        match self.try_alter(words) {
            Ok(reply) => Ok(reply),
            Err(Failure::Refused(refusal)) => Ok(Reply::Refused(refusal)),
            Err(Failure::Memory) => Err(AllocError),
        }
    }

    fn try_alter(&mut self, words: &AlterWords) -> Result<Reply, Failure>
        ensures done { IfOk result (λ reply. alter_table self.old words.now ≡ Ok (self.new, reply)) }
        ensures refused { IfErr result (IsDue (alter_table self.old words.now)) }
        ensures kept { OnErr result (self.new ≡ self.old) }
    {
        let Some(number) = self.store.number(words.table.as_slice()) else {
            return Err(Failure::Refused(Refusal::NoTable { row: None }));
        };
        let table = self.store.name(number).copy()?;
        let evolving = self.store.evolving(number);
        let epoch = evolving.epoch() + 1;
        let change = change_asked(self.alloc, evolving, &words.change)?;
        change_table(self.alloc, &mut self.store, number, change)?;
        Ok(Reply::Altered { table, epoch })
    }
}

// Changes a table's schema, or tells why it isn't changed.
fn change_table(
    alloc: Global,
    store: &mut PlainStore,
    number: usize,
    change: Change,
) -> Result<(), Failure>
    requires there { number < length store.old.store.tables }
    ensures changed { OnOk result (store.new ≡ with_schema_changed store.old number change) }
    ensures allowed { OnOk result (change_checked (table_at store.old.store number).lineage change ≡ Ok tt) }
    ensures refused { IfErr result (λ failure. (e : WhyNot) × (failure ≡ failure_of (name_of change) e) × (e ≢ change_error.Memory → change_checked (table_at store.old.store number).lineage change ≡ Err e)) }
    ensures kept { OnErr result (store.new ≡ store.old) }
{
    let column = changed_name(&change).copy()?;
    match store.change(alloc, number, change) {
        Ok(()) => Ok(()),
        Err(error) => Err(change_failure(error, column)),
    }
}
