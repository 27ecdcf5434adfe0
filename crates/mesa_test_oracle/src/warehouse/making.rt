// Tables that are made.
ghost use Rattle.std.specs.Prelude.{◌≡◌, ◌<◌, Ok, IfOk, IfErr, OnOk, OnErr, length};
ghost use Rattle.mesa_model.specs.declared.replies.Reply.TheVariants as reply_of;
ghost use Rattle.mesa_model.specs.Step.{done_or_refused};
ghost use Rattle.mesa_model.specs.Tables.{make_table as table_made};
ghost use Rattle.mesa_model.specs.Warehouse.{max_tables};
ghost use Rattle.mesa_binding.specs.Told.{IsDue};
ghost use Rattle.mesa_oracle_tables.specs.Kept.{with_table_more};

use crate::warehouse::PlainWarehouse;
use mesa_binding::{Failure, read_name, schema_asked};
use mesa_list::TryCopy;
use mesa_model::{Refusal, Reply, TableWords};
use mesa_oracle_tables::PlainStore;
use mesa_schema::{Name, Schema};
use std::alloc::{AllocError, Global};

/// How many tables there may be.
pub const MAX_TABLES: usize = 32;

impl PlainWarehouse {
    /// Makes a table, which has no rows yet.
    pub fn make_table(&mut self, words: &TableWords) -> Result<Reply, AllocError>
        ensures done { IfOk result (λ reply. done_or_refused self.old (table_made self.old words.now) ≡ (self.new, reply)) }
        ensures kept { OnErr result (self.new ≡ self.old) }
    {
        match self.try_make_table(words) {
            Ok(reply) => Ok(reply),
            Err(Failure::Refused(refusal)) => Ok(Reply::Refused(refusal)),
            Err(Failure::Memory) => Err(AllocError),
        }
    }

    fn try_make_table(&mut self, words: &TableWords) -> Result<Reply, Failure>
        ensures done { IfOk result (λ reply. table_made self.old words.now ≡ Ok (self.new, reply)) }
        ensures refused { IfErr result (IsDue (table_made self.old words.now)) }
        ensures kept { OnErr result (self.new ≡ self.old) }
    {
        let asked = words.table.as_slice();
        let name = read_name(self.alloc, asked)?;
        if self.store.is_taken(asked) {
            return Err(Failure::Refused(Refusal::TableExists));
        }
        let schema = schema_asked(self.alloc, words)?;
        let tables = self.store.len();
        if tables >= MAX_TABLES {
            let limit = MAX_TABLES as u32;
            return Err(Failure::Refused(Refusal::TablesFull { limit }));
        }
        Ok(add_table(self.alloc, &mut self.store, name, schema)?)
    }
}

// Adds a table without rows, and tells its name.
fn add_table(
    alloc: Global,
    store: &mut PlainStore,
    name: Name,
    schema: Schema,
) -> Result<Reply, AllocError>
    requires few { length store.old.store.tables < max_tables }
    ensures added { OnOk result (store.new ≡ with_table_more store.old name schema) }
    ensures told { IfOk result (λ reply. reply ≡ reply_of.Table name) }
    ensures kept { OnErr result (store.new ≡ store.old) }
{
    let made = name.copy()?;
    store.add_table(alloc, name, schema)?;
    Ok(Reply::Table { name: made })
}
