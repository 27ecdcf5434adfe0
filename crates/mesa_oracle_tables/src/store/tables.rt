// Tables that are added, and tables that are changed.
ghost use Rattle.std.specs.Prelude.{◌≡◌, ◌≢◌, ◌<◌, ◌++◌, ◌∷◌, [], length, slice_get, slice_index_or, slice_set, Ok, Err, IfErr, IfSome, OnOk, OnErr, vec_len, vec_capacity};
ghost use Rattle.mesa_schema.specs.Changes.{change_checked, columns_of};
ghost use Rattle.mesa_model.specs.Warehouse.{max_tables, table_at};
ghost use Rattle.mesa_oracle_tables.specs.Kept.{with_lineage, with_schema_changed, with_table_more};

use crate::changing::{changed, versions_lifted};
use crate::growing::zeros;
use crate::store::PlainStore;
use mesa_batch::{Glanced, totals_changed};
use mesa_list::TryCopy;
use mesa_schema::{Change, ChangeError, Evolving, Name, Schema, Totals};
use std::alloc::{AllocError, Global};
use std::sync::Arc;

impl PlainStore {
    /// Adds a table without rows.
    pub fn add_table(&mut self, alloc: Global, name: Name, schema: Schema) -> Result<(), AllocError>
        requires few { length self.old.store.tables < max_tables }
        ensures added { OnOk result (self.new ≡ with_table_more self.old name schema) }
        ensures kept { OnErr result (self.new ≡ self.old) }
    {
        let totals = zeros(alloc, &schema)?;
        let evolving = Arc::new(alloc, Evolving::new(alloc, schema))?;
        let mut oldests = self.oldests.copy()?;
        oldests.push(self.floor)?;
        self.tables.reserve(1)?;
        self.totals.push(totals)?;
        self.oldests = oldests;
        push_table(&mut self.tables, Glanced { name, evolving });
        Ok(())
    }

    /// Gives a table other views; its columns stay, and so do its contents.
    pub fn set_evolving(&mut self, table: usize, evolving: Arc<Evolving>)
        requires there { table < length self.old.store.tables }
        requires columns { columns_of evolving.value ≡ columns_of (table_at self.old.store table).lineage }
        ensures { self.new ≡ with_lineage self.old table evolving.value }
    {
        put_evolving(&mut self.tables, table, evolving);
    }

    /// Changes a table's schema where its rules allow it: every content is lifted. What pins share stays as it is.
    pub fn change(&mut self, alloc: Global, table: usize, change: Change) -> Result<(), ChangeError>
        requires there { table < length self.old.store.tables }
        ensures changed { OnOk result (self.new ≡ with_schema_changed self.old table change) }
        ensures allowed { OnOk result (change_checked (table_at self.old.store table).lineage change ≡ Ok tt) }
        ensures refused { IfErr result (λ e. e ≢ ChangeError.Memory → change_checked (table_at self.old.store table).lineage change ≡ Err e) }
        ensures kept { OnErr result (self.new ≡ self.old) }
    {
        let before = self.evolving(table);
        let own = totals_of(self.totals.as_slice(), table);
        let totals = totals_changed(before.present(), &change, own)?;
        let after = changed(alloc, before, change)?;
        let lift = after.lift_from(before.epoch())?;
        let versions = versions_lifted(alloc, &self.versions, table, &lift)?;
        put_evolving(&mut self.tables, table, after);
        *self.totals.at_mut(table) = totals;
        self.versions = versions;
        Ok(())
    }
}

pub(crate) fn totals_of(totals: &[Totals], table: usize) -> &Totals
    requires { table < length totals.now }
    ensures { result.now ≡ slice_index_or totals.now table [] }
{
    &totals[table]
}

// Puts a table's columns and views in the place of those before. Others that share those keep them.
pub(crate) fn put_evolving(tables: &mut Vec<Glanced>, table: usize, evolving: Arc<Evolving>)
    requires { table < length tables.old.items }
    ensures { IfSome (slice_get tables.old.items table) (λ t. tables.new.items ≡ slice_set tables.old.items table (record t { evolving = evolving })) }
{
    tables[table].evolving = evolving;
}

// Adds a table, for which there is room.
fn push_table(tables: &mut Vec<Glanced>, table: Glanced)
    requires { vec_len tables.old < vec_capacity tables.old }
    ensures { tables.new.items ≡ tables.old.items ++ table ∷ [] }
{
    let _ = tables.push(table);
}
