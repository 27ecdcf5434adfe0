// Fields that stand in lists by rising numbers.
ghost use Rattle.std.specs.Prelude.{◌≡◌, ◌++◌, flat_map, IsTrue, OnOk};
ghost use Rattle.std.specs.List.{AllByRecursion, list_all};
ghost use Rattle.mesa_record_fields.specs.Reading.{Gives, rising};

use crate::cursor::Cursor;
use crate::{Edition, RecordError};
use mesa_columns::Items;
use std::alloc::{AllocError, Global};

/// A field that stands in lists in which numbers rise.
pub trait Numbered: Sized + Drop {
    ghost use Rattle.std.specs.Prelude.{Bool, List, ℕ};
    ghost use Rattle.mesa_record_fields.specs.declared.edition.Edition.{Edition as AnyEdition};
    ghost use Rattle.mesa_record_fields.specs.Reading.{Left, Read};

    ghost number_of: { Self → ℕ };

    ghost read_at: { AnyEdition → ℕ → Left → Read Self };

    ghost spelling: { Self → List ℕ };

    /// What its type says of it.
    ghost Is: { Self → Type 0 };

    /// Whether its counts and lengths have room in their fields.
    ghost is_sound: { Self → Bool };

    fn number(&self) -> u16
        ensures { result ≡ number_of self.now };

    /// The field, whose number has to be at least this one.
    fn read(
        alloc: Global,
        cursor: &mut Cursor<'_>,
        edition: Edition,
        least: u32,
    ) -> Result<Self, RecordError>
        ensures { Gives result cursor.new (read_at edition least cursor.old) };

    fn write(&self, out: &mut Vec<u8>) -> Result<(), AllocError>
        requires { IsTrue (is_sound self.now) }
        ensures bytes { OnOk result (out.new.items ≡ out.old.items ++ spelling self.now) }
        ensures typed { OnOk result (Is self.now) };
}

/// So many fields, whose numbers rise.
pub fn read_rising<T: Numbered>(
    alloc: Global,
    cursor: &mut Cursor<'_>,
    edition: Edition,
    count: u16,
) -> Result<Items<T>, RecordError>
    ensures { Gives result cursor.new (rising T.number_of (T.read_at edition) 0 count cursor.old) }
{
    let mut fields = Items::new(alloc);
    let mut least = 0;
    for _ in 0..count {
        let field = T::read(alloc, cursor, edition, least)?;
        least = field.number() as u32 + 1;
        fields.push(field)?;
    }
    Ok(fields)
}

/// Appends fields, one after the other.
pub fn write_rising<T: Numbered>(fields: &[T], out: &mut Vec<u8>) -> Result<(), AllocError>
    requires { IsTrue (list_all T.is_sound fields.now) }
    ensures bytes { OnOk result (out.new.items ≡ out.old.items ++ flat_map T.spelling fields.now) }
    ensures typed { OnOk result (AllByRecursion T.Is fields.now) }
{
    for field in fields {
        field.write(out)?;
    }
    Ok(())
}
