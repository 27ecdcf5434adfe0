// What each record says, a function for each kind.
ghost use Rattle.std.specs.Prelude.{◌≡◌, ◌==◌, drop, length, IfErr, IfOk, Ok};
ghost use Rattle.csv.specs.Records.{fields_of};
ghost use Rattle.mesa_batch.specs.Load.{row_from};
ghost use Rattle.mesa_script.specs.Records.{Lease, Table, View, Alter, Row, Query, Explain, Pin, Release, Expire, Work, Recast};
ghost use Rattle.mesa_script.specs.Items.{LeaseOf, RowOf, Single, filter_in, item_of, parts_of};
ghost use Rattle.mesa_parse.specs.Failures.{Tells};
ghost use Rattle.mesa_parse.specs.Said.{item_as, name_as};

use crate::changes::read_change;
use crate::columns::{key_columns, names, value_columns};
use crate::failed::Failed;
use crate::kinds::Kind;
use crate::numbers::{MAX_NUMBER, MAX_PARTS, limit, number_in};
use crate::records::{RowFields, field, words};
use crate::versions::version;
use csv::ByteRecord;
use mesa_columns::Words;
use mesa_filter::QueryWords;
use mesa_model::{
    AlterWords, Command, ExplainWords, RecastWords, TableWords, ViewWords, WorkWords,
};
use mesa_script::Reason;
use std::alloc::{AllocError, Global};

/// What a record says.
#[derive(Drop)]
pub(crate) enum Said<'a> {
    /// How many turns a lease lasts.
    LeaseOf(u32),
    NextSession,
    /// A row of a load: its table's name, and then its fields.
    Row(RowFields<'a>),
    EndOfLoad,
    /// A command by itself.
    Single(Command),
}

// How many turns a lease lasts, which is one at least.
fn lease(fields: &ByteRecord) -> Result<u32, Reason>
    ensures read { IfOk result (λ turns. item_of Lease (fields_of fields.now) ≡ Ok (LeaseOf turns)) }
    ensures refused { IfErr result (λ reason. item_of Lease (fields_of fields.now) ≡ Err reason) }
{
    number_in(1, MAX_NUMBER, field(fields, 1))
}

// A table with its columns.
fn table(alloc: Global, fields: &ByteRecord) -> Result<Command, Failed>
    ensures read { IfOk result (λ command. item_of Table (fields_of fields.now) ≡ Ok (Single command)) }
    ensures refused { IfErr result (λ e. Tells e (item_of Table (fields_of fields.now))) }
{
    let keys = key_columns(alloc, field(fields, 2))?;
    let values = value_columns(alloc, field(fields, 3))?;
    let table = words(alloc, fields, 1)?;
    Ok(Command::Table(TableWords {
        table,
        keys,
        values,
    }))
}

// A view of a table, by the names of its columns.
fn view(alloc: Global, fields: &ByteRecord) -> Result<Command, AllocError>
    ensures { IfOk result (λ command. item_of View (fields_of fields.now) ≡ Ok (Single command)) }
{
    Ok(Command::View(ViewWords {
        view: words(alloc, fields, 1)?,
        table: words(alloc, fields, 2)?,
        keys: names(alloc, field(fields, 3))?,
        values: names(alloc, field(fields, 4))?,
    }))
}

// A table with a change of its columns.
fn alter(alloc: Global, fields: &ByteRecord) -> Result<Command, Failed>
    ensures read { IfOk result (λ command. item_of Alter (fields_of fields.now) ≡ Ok (Single command)) }
    ensures refused { IfErr result (λ e. Tells e (item_of Alter (fields_of fields.now))) }
{
    let change = read_change(alloc, fields)?;
    let table = words(alloc, fields, 1)?;
    Ok(Command::Alter(AlterWords { table, change }))
}

// The words of a row of a load.
#[tactic(auto, using(crate::proofs::RowItems::row_item))]
fn row(fields: &ByteRecord) -> RowFields<'_>
    ensures { item_of Row (fields_of fields.now) ≡ Ok (RowOf (row_from (drop 1 (fields_of result.fields.now)))) }
{
    RowFields { fields }
}

// A query; the fields that it leaves out are empty.
fn query(alloc: Global, fields: &ByteRecord) -> Result<Command, Failed>
    ensures read { IfOk result (λ command. item_of Query (fields_of fields.now) ≡ Ok (Single command)) }
    ensures refused { IfErr result (λ e. Tells e (item_of Query (fields_of fields.now))) }
{
    let version = version(true, field(fields, 2))?;
    let limit = limit(field(fields, 6))?;
    Ok(Command::Query(QueryWords {
        relation: words(alloc, fields, 1)?,
        version,
        filter: words(alloc, fields, 3)?,
        group: words(alloc, fields, 4)?,
        values: words(alloc, fields, 5)?,
        limit,
        resume: words(alloc, fields, 7)?,
    }))
}

// The filter of the query that is explained, where there is a field for it.
fn filter(alloc: Global, fields: &ByteRecord) -> Result<Option<Words>, AllocError>
    ensures { IfOk result (λ filter. filter ≡ filter_in (length (fields_of fields.now) == 4) (fields_of fields.now)) }
{
    if fields.len() != 4 {
        return Ok(None);
    }
    Ok(Some(words(alloc, fields, 3)?))
}

// A table or view, the version at which a query of it is explained, which is no pin's, and the query's filter.
fn explain(alloc: Global, fields: &ByteRecord) -> Result<Command, Failed>
    ensures read { IfOk result (λ command. item_of Explain (fields_of fields.now) ≡ Ok (Single command)) }
    ensures refused { IfErr result (λ e. Tells e (item_of Explain (fields_of fields.now))) }
{
    let version = version(false, field(fields, 2))?;
    let relation = words(alloc, fields, 1)?;
    let filter = filter(alloc, fields)?;
    Ok(Command::Explain(ExplainWords {
        relation,
        version,
        filter,
    }))
}

// The version to keep, which is no pin's.
fn pin(fields: &ByteRecord) -> Result<Command, Failed>
    ensures read { IfOk result (λ command. item_of Pin (fields_of fields.now) ≡ Ok (Single command)) }
    ensures refused { IfErr result (λ e. Tells e (item_of Pin (fields_of fields.now))) }
{
    let version = version(false, field(fields, 1))?;
    Ok(Command::Pin(version))
}

// The token of the pin to give back.
fn release(fields: &ByteRecord) -> Result<Command, Failed>
    ensures read { IfOk result (λ command. item_of Release (fields_of fields.now) ≡ Ok (Single command)) }
    ensures refused { IfErr result (λ e. Tells e (item_of Release (fields_of fields.now))) }
{
    let token = number_in(0, MAX_NUMBER, field(fields, 1))?;
    Ok(Command::Release(token))
}

// The version below which none is to be asked for any more, of the table that is named or of all.
fn expire(alloc: Global, fields: &ByteRecord) -> Result<Command, Failed>
    ensures read { IfOk result (λ command. item_of Expire (fields_of fields.now) ≡ Ok (Single command)) }
    ensures refused { IfErr result (λ e. Tells e (item_of Expire (fields_of fields.now))) }
{
    if fields.len() == 3 {
        let version = number_in(0, MAX_NUMBER, field(fields, 2))?;
        let table = Some(words(alloc, fields, 1)?);
        return Ok(Command::Expire { table, version });
    }
    let version = number_in(0, MAX_NUMBER, field(fields, 1))?;
    Ok(Command::Expire {
        table: None,
        version,
    })
}

// Into how many parts a merge is cut.
fn parts(fields: &ByteRecord) -> Result<u8, Reason>
    ensures { result ≡ parts_of (length (fields_of fields.now) == 3) (fields_of fields.now) }
{
    if fields.len() != 3 {
        return Ok(1);
    }
    let parts = number_in(1, MAX_PARTS, field(fields, 2))?;
    Ok(parts as u8)
}

// The table of which deltas are to be merged, and into how many parts the merge is cut.
fn work(alloc: Global, fields: &ByteRecord) -> Result<Command, Failed>
    ensures read { IfOk result (λ command. item_of Work (fields_of fields.now) ≡ Ok (Single command)) }
    ensures refused { IfErr result (λ e. Tells e (item_of Work (fields_of fields.now))) }
{
    let parts = parts(fields)?;
    let table = words(alloc, fields, 1)?;
    Ok(Command::Work(WorkWords { table, parts }))
}

// A table, and the names of the columns that it is to have.
fn recast(alloc: Global, fields: &ByteRecord) -> Result<Command, AllocError>
    ensures { IfOk result (λ command. item_of Recast (fields_of fields.now) ≡ Ok (Single command)) }
{
    Ok(Command::Recast(RecastWords {
        table: words(alloc, fields, 1)?,
        keys: names(alloc, field(fields, 2))?,
        values: names(alloc, field(fields, 3))?,
    }))
}

/// What a record of a kind says, or what is wrong with its words and numbers.
pub(crate) fn read_item<'a>(
    alloc: Global,
    kind: Kind,
    fields: &'a ByteRecord,
) -> Result<Said<'a>, Failed>
    ensures read { IfOk result (λ said. item_of (name_as kind) (fields_of fields.now) ≡ Ok (item_as said)) }
    ensures refused { IfErr result (λ e. Tells e (item_of (name_as kind) (fields_of fields.now))) }
{
    let command = match kind {
        Kind::Lease => return Ok(Said::LeaseOf(lease(fields)?)),
        Kind::Session => return Ok(Said::NextSession),
        Kind::Row => return Ok(Said::Row(row(fields))),
        Kind::Commit => return Ok(Said::EndOfLoad),
        Kind::Table => table(alloc, fields)?,
        Kind::View => view(alloc, fields)?,
        Kind::Alter => alter(alloc, fields)?,
        Kind::Query => query(alloc, fields)?,
        Kind::Explain => explain(alloc, fields)?,
        Kind::Pin => pin(fields)?,
        Kind::Release => release(fields)?,
        Kind::Expire => expire(alloc, fields)?,
        Kind::Work => work(alloc, fields)?,
        Kind::Recast => recast(alloc, fields)?,
    };
    Ok(Said::Single(command))
}
