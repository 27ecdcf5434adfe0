// The records of a script, as csv reads them, one after another.
ghost use Rattle.std.specs.Prelude.{◌≡◌, [], ◌∷◌, if◌then◌else◌, IfOk, IfErr};
ghost use Rattle.std.specs.Bool.{OnTrue};
ghost use Rattle.csv.specs.Records.{fields_of};
ghost use Rattle.mesa_script.specs.Records.{field as field_at};
ghost use Rattle.mesa_script.specs.Script.{records_of};
ghost use Rattle.mesa_parse.specs.Left.{IsBetween, records_left};

use csv::{ByteRecord, Reader, ReaderBuilder};
use mesa_columns::Words;
use mesa_list::Items;
use mesa_script::ScriptError;
use std::alloc::{AllocError, Global};

/// A reader of a text's records, of any lengths, none of which is a header.
pub(crate) fn record_reader(alloc: Global, text: &[u8]) -> Reader<&[u8]>
    ensures between { IsBetween result }
    ensures all { records_left result ≡ records_of text.now }
{
    ReaderBuilder::new()
        .has_headers(false)
        .flexible(true)
        .from_reader(alloc, text)
}

/// Reads the next record, and says whether there was one. The reader fails for want of memory
/// alone, since what it reads is in memory.
pub(crate) fn next_record(
    reader: &mut Reader<&[u8]>,
    fields: &mut ByteRecord,
) -> Result<bool, ScriptError>
    requires { IsBetween reader.old }
    ensures next { IfOk result (λ found. records_left reader.old ≡ (if found then fields_of fields.new ∷ records_left reader.new else [])) }
    ensures between { IfOk result (λ found. OnTrue found (IsBetween reader.new)) }
    ensures fails { IfErr result (λ e. e ≡ ScriptError.Memory) }
{
    let Ok(found) = reader.read_byte_record(fields) else {
        return Err(ScriptError::Memory);
    };
    Ok(found)
}

/// The field at a place, counted from 0, and no bytes behind the last one.
pub(crate) fn field(fields: &ByteRecord, place: usize) -> &[u8]
    ensures { result.now ≡ field_at place (fields_of fields.now) }
{
    match fields.get(place) {
        Some(field) => field,
        None => b"",
    }
}

/// A copy of the field at a place.
pub(crate) fn words(alloc: Global, fields: &ByteRecord, place: usize) -> Result<Words, AllocError>
    ensures { IfOk result (λ words. words ≡ field_at place (fields_of fields.now)) }
{
    Items::from_bytes(alloc, field(fields, place))
}

/// The fields of a record behind its first one, lent.
#[derive(Drop)]
pub(crate) struct RowFields<'a> {
    pub(crate) fields: &'a ByteRecord,
}

impl mesa_list::Words for RowFields<'_> {
    ghost use Rattle.std.specs.Prelude.{drop};
    ghost use Rattle.csv.specs.Records.{fields_of};

    ghost words = { λ r. drop 1 (fields_of r.fields.now) };

    fn count(&self) -> usize {
        self.fields.len().saturating_sub(1)
    }

    fn word(&self, place: usize) -> &[u8] {
        // A place behind the last field has no bytes, as in `field`.
        if place >= self.fields.len() {
            return b"";
        }
        field(self.fields, place + 1)
    }
}
