// Changes of a table's columns.
ghost use Rattle.std.specs.Prelude.{◌≡◌, IfErr, IfOk, Ok, option_map};
ghost use Rattle.csv.specs.Records.{fields_of};
ghost use Rattle.mesa_script.specs.Records.{Alter, change_of, field as field_at, fits_fields as fields_fit};
ghost use Rattle.mesa_script.specs.Items.{change_words};
ghost use Rattle.mesa_parse.specs.Failures.{Tells};
ghost use Rattle.mesa_parse.specs.Said.{change_as};

use crate::columns::{key_column, value_column};
use crate::failed::Failed;
use crate::records::{field, words};
use csv::ByteRecord;
use mesa_model::ChangeWords;
use mesa_script::Reason;
use std::alloc::Global;

/// What a change does to a table's columns.
#[derive(Clone, Copy)]
pub(crate) enum Change {
    AddValue,
    DropValue,
    AddKey,
}

// The change of a name.
fn change_named(word: &[u8]) -> Option<Change>
    ensures { option_map change_as result ≡ change_of word.now }
{
    if b"add_value".as_slice() == word {
        Some(Change::AddValue)
    } else if b"drop_value".as_slice() == word {
        Some(Change::DropValue)
    } else if b"add_key".as_slice() == word {
        Some(Change::AddKey)
    } else {
        None
    }
}

/// Whether a record that asks for a change may have so many fields; where the change is unknown,
/// as many as one of them.
pub(crate) fn fits_change(fields: &ByteRecord) -> bool
    ensures { result ≡ fields_fit Alter (fields_of fields.now) }
{
    let count = fields.len();
    match change_named(field(fields, 2)) {
        Some(Change::AddValue | Change::AddKey) => count == 5,
        Some(Change::DropValue) => count == 4,
        None => count >= 4 && count <= 5,
    }
}

/// The change that a record asks for. Its default isn't read.
pub(crate) fn read_change(alloc: Global, fields: &ByteRecord) -> Result<ChangeWords, Failed>
    ensures read { IfOk result (λ change. change_words (change_of (field_at 2 (fields_of fields.now))) (field_at 3 (fields_of fields.now)) (field_at 4 (fields_of fields.now)) ≡ Ok change) }
    ensures refused { IfErr result (λ e. Tells e (change_words (change_of (field_at 2 (fields_of fields.now))) (field_at 3 (fields_of fields.now)) (field_at 4 (fields_of fields.now)))) }
{
    match change_named(field(fields, 2)) {
        None => Err(Failed::Bad(Reason::Word)),
        Some(Change::AddValue) => {
            let column = value_column(alloc, field(fields, 3))?;
            let default = words(alloc, fields, 4)?;
            Ok(ChangeWords::AddValue { column, default })
        }
        Some(Change::DropValue) => {
            let name = words(alloc, fields, 3)?;
            Ok(ChangeWords::DropValue { name })
        }
        Some(Change::AddKey) => {
            let column = key_column(alloc, field(fields, 3))?;
            let default = words(alloc, fields, 4)?;
            Ok(ChangeWords::AddKey { column, default })
        }
    }
}
