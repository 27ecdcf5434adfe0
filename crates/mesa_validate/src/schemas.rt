// Tables, views and changes of schemas.
ghost use Rattle.std.specs.Prelude.{◌≡◌, ◌≢◌, ◌+◌, ℕ, IfOk, IfErr, IsTrue, OnOk, Ok, Err, Some, is_ok};
ghost use Rattle.mesa_list.specs.Checks.{refused_as};
ghost use Rattle.mesa_catalog.specs.mesa_columns.declared.changes.Change.{Change as AnyChange};
ghost use Rattle.mesa_catalog.specs.mesa_columns.declared.changes.ChangeError.TheVariants as change_error;
ghost use Rattle.mesa_schema.specs.Changes.{change_checked, columns_of, epoch_of};
ghost use Rattle.mesa_record.specs.declared.record.Record.TheVariants as record_of;
ghost use Rattle.mesa_model.specs.declared.replies.Reply.TheVariants as reply;
ghost use Rattle.mesa_model.specs.Refusals.{change_refusal};
ghost use Rattle.mesa_model.specs.Tables.{alter_table, change_asked as asked_of, changed_name as name_of, columns_asked, make_table, make_view};
ghost use Rattle.mesa_catalog.specs.mesa_store_spec.Catalog.{meta_at};
ghost use Rattle.mesa_binding.specs.Told.{IsDue};
ghost use Rattle.mesa_validate.specs.Ruled.{IsRefused, IsRuled};
ghost use Rattle.mesa_validate.specs.Seen.{number_of};

use crate::Ruled;
use crate::lookups::table_number;
use mesa_binding::{
    Failure, change_asked, change_failure, changed_name, read_name, schema_asked, view_asked,
};
use mesa_catalog::Catalog;
use mesa_list::{Items, TryCopy};
use mesa_model::{AlterWords, Refusal, Reply, TableWords, ViewWords};
use mesa_record::Record;
use mesa_schema::{Change, ChangeError, Evolving, KeyColumn, Name, Schema, ValueColumn, View};
use std::alloc::{AllocError, Global};

/// How many tables there may be.
const MAX_TABLES: u16 = 32;

/// A table that is asked.
pub fn table(alloc: Global, catalog: &Catalog, words: &TableWords) -> Result<Ruled, Failure>
    ensures written { IfOk result (λ r. r.writes ≡ record_of.Table words.now.table (columns_asked words.now).keys (columns_asked words.now).values) }
    ensures told { IfOk result (λ r. r.tells ≡ reply.Table words.now.table) }
    ensures ruled { IfOk result (IsRuled catalog.now.catalogue (λ w. make_table w words.now)) }
    ensures refused { IfErr result (IsRefused catalog.now.catalogue (λ w. make_table w words.now)) }
{
    let name = read_name(alloc, words.table.as_slice())?;
    if catalog.find(&name).is_some() {
        return Err(Failure::Refused(Refusal::TableExists));
    }
    let schema = schema_asked(alloc, words)?;
    if catalog.tables() >= MAX_TABLES {
        let limit = MAX_TABLES as u32;
        return Err(Failure::Refused(Refusal::TablesFull { limit }));
    }
    Ok(table_made(alloc, name, &schema)?)
}

// The record of a table of this name and these columns, and its reply.
fn table_made(alloc: Global, name: Name, schema: &Schema) -> Result<Ruled, AllocError>
    ensures written { IfOk result (λ r. r.writes ≡ record_of.Table name schema.now.keys schema.now.values) }
    ensures told { IfOk result (λ r. r.tells ≡ reply.Table name) }
{
    let made = name.copy()?;
    let keys = Items::from_vec(KeyColumn::copy_all(alloc, schema.keys())?);
    let values = Items::from_vec(ValueColumn::copy_all(alloc, schema.values())?);
    Ok(Ruled {
        writes: Record::Table { name, keys, values },
        tells: Reply::Table { name: made },
    })
}

/// A view that is asked. It is of the table's present columns.
pub fn view(alloc: Global, catalog: &Catalog, words: &ViewWords) -> Result<Ruled, Failure>
    ensures written { IfOk result (λ r. (number : ℕ) × (number_of catalog.now.catalogue words.now.table ≡ Some number) × (r.writes ≡ record_of.View number words.now.view words.now.keys words.now.values)) }
    ensures told { IfOk result (λ r. r.tells ≡ reply.View words.now.view) }
    ensures ruled { IfOk result (IsRuled catalog.now.catalogue (λ w. make_view w words.now)) }
    ensures refused { IfErr result (IsRefused catalog.now.catalogue (λ w. make_view w words.now)) }
{
    let name = read_name(alloc, words.view.as_slice())?;
    if catalog.find(&name).is_some() {
        return Err(Failure::Refused(Refusal::TableExists));
    }
    let Some(table) = table_number(catalog, words.table.as_slice()) else {
        return Err(Failure::Refused(Refusal::NoTable { row: None }));
    };
    let made = name.copy()?;
    let evolving = catalog.evolving(table);
    // So a view of the table has not too many columns for a record.
    let _ = evolving.present();
    let chosen = view_asked(alloc, evolving, name, words)?;
    let View { name, keys, values } = chosen;
    Ok(Ruled {
        writes: Record::View {
            table,
            name,
            keys,
            values,
        },
        tells: Reply::View { name: made },
    })
}

/// A change of a schema that is asked.
pub fn alter(alloc: Global, catalog: &Catalog, words: &AlterWords) -> Result<Ruled, Failure>
    ensures written { IfOk result (λ r. (number : ℕ) × (change : AnyChange) × (number_of catalog.now.catalogue words.now.table ≡ Some number) × (asked_of (columns_of (meta_at catalog.now.catalogue number).lineage) words.now.change ≡ Ok change) × (r.writes ≡ record_of.Alter number change)) }
    ensures told { IfOk result (λ r. (number : ℕ) × (number_of catalog.now.catalogue words.now.table ≡ Some number) × (r.tells ≡ reply.Altered words.now.table (epoch_of (meta_at catalog.now.catalogue number).lineage + 1))) }
    ensures ruled { IfOk result (IsRuled catalog.now.catalogue (λ w. alter_table w words.now)) }
    ensures refused { IfErr result (IsRefused catalog.now.catalogue (λ w. alter_table w words.now)) }
{
    let Some(table) = table_number(catalog, words.table.as_slice()) else {
        return Err(Failure::Refused(Refusal::NoTable { row: None }));
    };
    let name = catalog.name(table).copy()?;
    let evolving = catalog.evolving(table);
    let change = change_asked(alloc, evolving, &words.change)?;
    check_change(evolving, &change)?;
    let epoch = evolving.epoch() + 1;
    Ok(Ruled {
        writes: Record::Alter { table, change },
        tells: Reply::Altered { table: name, epoch },
    })
}

// Whether a table of these columns and views may be changed so. Only a refusal takes memory.
fn check_change(evolving: &Evolving, change: &Change) -> Result<(), Failure>
    ensures passes { OnOk result (change_checked evolving.now change.now ≡ Ok tt) }
    ensures refused { IfErr result (IsDue (refused_as (change_refusal (name_of change.now)) (change_checked evolving.now change.now))) }
{
    if evolving.allows(change) {
        return Ok(());
    }
    let column = changed_name(change).copy()?;
    match change_copy(evolving, change) {
        Ok(()) => Ok(()),
        Err(error) => Err(change_failure(error, column)),
    }
}

// What a copy answers that is changed so.
fn change_copy(evolving: &Evolving, change: &Change) -> Result<(), ChangeError>
    ensures allowed { OnOk result (IsTrue (is_ok (change_checked evolving.now change.now))) }
    ensures refused { IfErr result (λ e. e ≢ change_error.Memory → change_checked evolving.now change.now ≡ Err e) }
{
    let change = change.copy()?;
    let mut after = evolving.copy()?;
    after.change(change)
}
