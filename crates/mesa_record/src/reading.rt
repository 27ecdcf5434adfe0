// Reading records.
ghost use Rattle.std.specs.Prelude.{◌≡◌, ◌≢◌, Ok, Err, IfOk, IfErr};
ghost use Rattle.mesa_record.specs.Editions.{IsSpelled};
ghost use Rattle.mesa_record_fields.specs.Reading.{Gives};
ghost use Rattle.mesa_record.specs.Reading.{alter_at, checkpoint_at, expire_table_at, fields_of, publish_at, recast_at, record_at, swap_at, table_at, view_at};
ghost use Rattle.mesa_record.specs.declared.record.Record.{Record as AnyRecord};
ghost use Rattle.mesa_record.specs.Rules.{FitsIn, IsRecord};
ghost use Rattle.mesa_record_fields.specs.declared.edition.Edition.{Edition as AnyEdition};
ghost use Rattle.mesa_record.specs.Spelling.{spelled_in};

use crate::files::read_files_if_any;
use crate::recasting::read_recasting;
use crate::stated::read_checkpoint;
use crate::{Record, reads_records, spells_records};
use mesa_record_fields::{
    Cursor, Edition, RecordError, read_change, read_key_columns, read_names, read_rising,
    read_value_columns,
};
use std::alloc::Global;

/// The record that the bytes spell.
pub fn decode(alloc: Global, bytes: &[u8]) -> Result<Record, RecordError>
    ensures read { IfOk result (λ r. record_at bytes.now ≡ Ok r) }
    ensures fault { IfErr result (λ e. e ≢ RecordError.Memory → record_at bytes.now ≡ Err e) }

    // What is read is a record, and spelled so in one of the editions.
    ensures sound { IfOk result IsRecord }
    ensures spelled { IfOk result (λ r. IsSpelled r bytes.now) }

    // What is refused spells no record.
    ensures refused { IfErr result (λ e. e ≢ RecordError.Memory → (edition : AnyEdition) (r : AnyRecord) → IsRecord r → FitsIn edition r → bytes.now ≢ spelled_in edition r) }
{
    reads_records();
    spells_records();
    whole_record(alloc, bytes)
}

// The record that the bytes spell, with nothing behind it.
fn whole_record(alloc: Global, bytes: &[u8]) -> Result<Record, RecordError>
    ensures read { IfOk result (λ r. record_at bytes.now ≡ Ok r) }
    ensures fault { IfErr result (λ e. e ≢ RecordError.Memory → record_at bytes.now ≡ Err e) }
{
    let mut cursor = Cursor::new(bytes);
    let kind = cursor.byte()?;
    let record = fields(alloc, kind, 0, &mut cursor)?;
    if !cursor.left().is_empty() {
        return Err(RecordError::Trailing { at: cursor.at() });
    }
    Ok(record)
}

// The fields of a record, by its kind, which stood at this place.
#[tactic(auto, unfolding(crate::specs::Reading::fields_of))]
fn fields(alloc: Global, kind: u8, at: u64, cursor: &mut Cursor<'_>) -> Result<Record, RecordError>
    ensures { Gives result cursor.new (fields_of at kind cursor.old) }
{
    match kind {
        1 => Ok(Record::Run {
            number: cursor.word()?,
        }),
        2 => table(alloc, cursor),
        3 => view(alloc, cursor),
        4 => alter(alloc, cursor),
        5 => publish(alloc, cursor, Edition::First),
        6 => swap(alloc, cursor, Edition::First),
        7 => Ok(Record::Expire {
            version: cursor.word()?,
        }),
        8 => checkpoint(alloc, cursor, Edition::First),
        9 => publish(alloc, cursor, Edition::Second),
        10 => swap(alloc, cursor, Edition::Second),
        11 => checkpoint(alloc, cursor, Edition::Second),
        12 => expire_table(cursor),
        13 => checkpoint(alloc, cursor, Edition::Third),
        14 => recast(alloc, cursor),
        15 => checkpoint(alloc, cursor, Edition::Fourth),
        _ => Err(RecordError::BadKind { at }),
    }
}

fn expire_table(cursor: &mut Cursor<'_>) -> Result<Record, RecordError>
    ensures { Gives result cursor.new (expire_table_at cursor.old) }
{
    let table = cursor.half()?;
    let version = cursor.word()?;
    Ok(Record::ExpireTable { table, version })
}

fn table(alloc: Global, cursor: &mut Cursor<'_>) -> Result<Record, RecordError>
    ensures { Gives result cursor.new (table_at cursor.old) }
{
    let name = cursor.name(alloc)?;
    let keys = read_key_columns(alloc, cursor)?;
    let values = read_value_columns(alloc, cursor)?;
    Ok(Record::Table { name, keys, values })
}

fn view(alloc: Global, cursor: &mut Cursor<'_>) -> Result<Record, RecordError>
    ensures { Gives result cursor.new (view_at cursor.old) }
{
    let table = cursor.half()?;
    let name = cursor.name(alloc)?;
    let keys = read_names(alloc, cursor)?;
    let values = read_names(alloc, cursor)?;
    Ok(Record::View {
        table,
        name,
        keys,
        values,
    })
}

fn alter(alloc: Global, cursor: &mut Cursor<'_>) -> Result<Record, RecordError>
    ensures { Gives result cursor.new (alter_at cursor.old) }
{
    let table = cursor.half()?;
    let change = read_change(alloc, cursor)?;
    Ok(Record::Alter { table, change })
}

fn publish(alloc: Global, cursor: &mut Cursor<'_>, edition: Edition) -> Result<Record, RecordError>
    ensures { Gives result cursor.new (publish_at edition cursor.old) }
{
    let version = cursor.word()?;
    let count = cursor.half()?;
    let parts = read_rising(alloc, cursor, edition, count)?;
    Ok(Record::Publish { version, parts })
}

fn swap(alloc: Global, cursor: &mut Cursor<'_>, edition: Edition) -> Result<Record, RecordError>
    ensures { Gives result cursor.new (swap_at edition cursor.old) }
{
    let table = cursor.half()?;
    let base = cursor.flag()?;
    let from = cursor.word()?;
    let to = cursor.word()?;
    let epoch = cursor.word()?;
    let files = read_files_if_any(alloc, cursor, edition)?;
    Ok(Record::Swap {
        table,
        base,
        from,
        to,
        epoch,
        files,
    })
}

fn checkpoint(
    alloc: Global,
    cursor: &mut Cursor<'_>,
    edition: Edition,
) -> Result<Record, RecordError>
    ensures { Gives result cursor.new (checkpoint_at edition cursor.old) }
{
    Ok(Record::Checkpoint(read_checkpoint(alloc, cursor, edition)?))
}

fn recast(alloc: Global, cursor: &mut Cursor<'_>) -> Result<Record, RecordError>
    ensures { Gives result cursor.new (recast_at cursor.old) }
{
    Ok(Record::Recast(read_recasting(alloc, cursor)?))
}
