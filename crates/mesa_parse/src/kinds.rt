// What records are for.
ghost use Rattle.std.specs.Prelude.{◌≡◌, option_map};
ghost use Rattle.csv.specs.Records.{fields_of};
ghost use Rattle.mesa_script.specs.Records.{fits_fields as fields_fit, name_of, field as field_at};
ghost use Rattle.mesa_parse.specs.Said.{name_as};

use crate::changes::fits_change;
use crate::records::field;
use csv::ByteRecord;

/// What a record is for.
#[derive(Clone, Copy)]
pub(crate) enum Kind {
    Lease,
    Session,
    Table,
    View,
    Alter,
    Row,
    Commit,
    Query,
    Explain,
    Pin,
    Release,
    Expire,
    Work,
    Recast,
}

// The kind of the records of a name.
fn kind_named(word: &[u8]) -> Option<Kind>
    ensures { option_map name_as result ≡ name_of word.now }
{
    if b"lease".as_slice() == word {
        Some(Kind::Lease)
    } else if b"session".as_slice() == word {
        Some(Kind::Session)
    } else if b"table".as_slice() == word {
        Some(Kind::Table)
    } else if b"view".as_slice() == word {
        Some(Kind::View)
    } else if b"alter".as_slice() == word {
        Some(Kind::Alter)
    } else if b"row".as_slice() == word {
        Some(Kind::Row)
    } else if b"commit".as_slice() == word {
        Some(Kind::Commit)
    } else if b"query".as_slice() == word {
        Some(Kind::Query)
    } else if b"explain".as_slice() == word {
        Some(Kind::Explain)
    } else if b"pin".as_slice() == word {
        Some(Kind::Pin)
    } else if b"release".as_slice() == word {
        Some(Kind::Release)
    } else if b"expire".as_slice() == word {
        Some(Kind::Expire)
    } else if b"work".as_slice() == word {
        Some(Kind::Work)
    } else if b"recast".as_slice() == word {
        Some(Kind::Recast)
    } else {
        None
    }
}

impl Kind {
    /// The kind of a record, if its first field is the name of one.
    pub(crate) fn of(fields: &ByteRecord) -> Option<Kind>
        ensures { option_map name_as result ≡ name_of (field_at 0 (fields_of fields.now)) }
    {
        kind_named(field(fields, 0))
    }

    /// Whether a record of this kind may have so many fields.
    pub(crate) fn fits_fields(self, fields: &ByteRecord) -> bool
        ensures { result ≡ fields_fit (name_as self) (fields_of fields.now) }
    {
        let count = fields.len();
        match self {
            Kind::Session | Kind::Commit => count == 1,
            Kind::Pin => count >= 1 && count <= 2,
            Kind::Lease | Kind::Release => count == 2,
            Kind::Expire | Kind::Work => count >= 2 && count <= 3,
            Kind::Row => count >= 2,
            Kind::Explain => count >= 2 && count <= 4,
            Kind::Query => count >= 2 && count <= 8,
            Kind::Table | Kind::Recast => count == 4,
            Kind::View => count == 5,
            Kind::Alter => fits_change(fields),
        }
    }
}
