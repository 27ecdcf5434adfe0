// Tables that are recast.
ghost use Rattle.std.specs.Prelude.{◌≡◌, ◌<◌, length, Ok, OnOk, OnErr};
ghost use Rattle.mesa_schema.specs.Recasts.{recast_checked};
ghost use Rattle.mesa_model.specs.Warehouse.{table_at};
ghost use Rattle.mesa_oracle_tables.specs.Kept.{with_table_recast};

use crate::regrouping::{renewed, versions_recast};
use crate::store::PlainStore;
use crate::store::tables::{put_evolving, totals_of};
use mesa_batch::totals_recast;
use mesa_binding::RecastNames;
use std::alloc::{AllocError, Global};

impl PlainStore {
    /// Recasts a table to these of its columns, which its rules allow: every content is grouped. What pins share stays as it is.
    pub fn recast(
        &mut self,
        alloc: Global,
        table: usize,
        names: RecastNames,
    ) -> Result<(), AllocError>
        requires there { table < length self.old.store.tables }
        requires allowed { recast_checked (table_at self.old.store table).lineage (record { keys = names.keys; values = names.values }) ≡ Ok tt }
        ensures recast { OnOk result (self.new ≡ with_table_recast self.old table (record { keys = names.keys; values = names.values })) }
        ensures kept { OnErr result (self.new ≡ self.old) }
    {
        let before = self.evolving(table);
        let present = before.present();
        let own = totals_of(self.totals.as_slice(), table);
        let totals = totals_recast(alloc, present.values(), own, names.values.as_slice())?;
        let versions = versions_recast(alloc, &self.versions, table, present, &names)?;
        let after = renewed(alloc, before, names)?;
        put_evolving(&mut self.tables, table, after);
        *self.totals.at_mut(table) = totals;
        self.versions = versions;
        Ok(())
    }
}
