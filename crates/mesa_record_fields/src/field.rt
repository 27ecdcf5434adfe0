// Fields that stand in lists: how each is read and written.
ghost use Rattle.std.specs.Prelude.{◌≡◌, ◌++◌, ◌≤◌, List, ℕ, flat_map, length, OnOk};
ghost use Rattle.mesa_record_fields.specs.declared.edition.Edition.TheVariants.{Fourth as AsFourth};
ghost use Rattle.mesa_record_fields.specs.Reading.{Gives, wide_at, wide_amount_at, amount_at, key_column_at, long_at, many, name_at, value_column_at};
ghost use Rattle.mesa_record_fields.specs.Spelling.{aggregate, total, amount, counted, key_column, half, long, text, value_column, word};
ghost use Rattle.std.specs.List.{AllByRecursion};
ghost use Rattle.mesa_columns.specs.mesa_value.Agg.{IsAmount, IsNarrow};
ghost use Rattle.mesa_columns.specs.declared.columns.KeyColumn.{KeyColumn as Column};
ghost use Rattle.mesa_columns.specs.declared.columns.ValueColumn.{ValueColumn as Measure};
ghost use Rattle.mesa_record_fields.specs.Rules.{IsHalf, IsLong, IsNamed, IsTotal, IsWord};

use crate::RecordError;
use crate::cursor::Cursor;
use mesa_columns::{Amount, Items, KeyColumn, Name, ValueColumn, agg_byte, kind_byte};
use std::alloc::{AllocError, Global};

/// A field that stands in lists.
pub trait Field: Sized + Drop {
    ghost use Rattle.std.specs.Prelude.{List, ℕ};
    ghost use Rattle.mesa_record_fields.specs.Reading.{Left, Read};

    ghost read_at: { Left → Read Self };

    ghost spelling: { Self → List ℕ };

    /// What its type says of it.
    ghost Is: { Self → Type 0 };

    fn read(alloc: Global, cursor: &mut Cursor<'_>) -> Result<Self, RecordError>
        ensures { Gives result cursor.new (read_at cursor.old) };

    fn write(&self, out: &mut Vec<u8>) -> Result<(), AllocError>
        ensures bytes { OnOk result (out.new.items ≡ out.old.items ++ spelling self.now) }
        ensures typed { OnOk result (Is self.now) };
}

// So many fields, one after the other.
pub(crate) fn read_fields<T: Field>(
    alloc: Global,
    cursor: &mut Cursor<'_>,
    count: u8,
) -> Result<Items<T>, RecordError>
    ensures { Gives result cursor.new (many T.read_at count cursor.old) }
{
    let mut fields = Items::new(alloc);
    for _ in 0..count {
        fields.push(T::read(alloc, cursor)?)?;
    }
    Ok(fields)
}

// Appends fields, one after the other.
fn write_fields<T: Field>(fields: &[T], out: &mut Vec<u8>) -> Result<(), AllocError>
    ensures bytes { OnOk result (out.new.items ≡ out.old.items ++ flat_map T.spelling fields.now) }
    ensures typed { OnOk result (AllByRecursion T.Is fields.now) }
{
    for field in fields {
        field.write(out)?;
    }
    Ok(())
}

/// Appends how many fields there are, and then each.
pub fn write_counted<T: Field>(fields: &[T], out: &mut Vec<u8>) -> Result<(), AllocError>
    requires { length fields.now ≤ 16 }
    ensures bytes { OnOk result (out.new.items ≡ out.old.items ++ counted T.spelling fields.now) }
    ensures typed { OnOk result (AllByRecursion T.Is fields.now) }
{
    out.push(fields.len() as u8)?;
    write_fields(fields, out)
}

impl Field for Name {
    ghost read_at = { name_at };

    ghost spelling = { text };

    ghost Is = { IsNamed };

    fn read(alloc: Global, cursor: &mut Cursor<'_>) -> Result<Self, RecordError> {
        cursor.name(alloc)
    }

    fn write(&self, out: &mut Vec<u8>) -> Result<(), AllocError> {
        out.push(self.bytes().len() as u8)?;
        out.extend_from_slice(self.bytes())
    }
}

impl Field for KeyColumn {
    ghost read_at = { key_column_at };

    ghost spelling = { key_column };

    ghost Is = { λ (c : Column). IsNamed c.name };

    fn read(alloc: Global, cursor: &mut Cursor<'_>) -> Result<Self, RecordError> {
        let name = cursor.name(alloc)?;
        let kind = cursor.kind()?;
        Ok(KeyColumn { name, kind })
    }

    fn write(&self, out: &mut Vec<u8>) -> Result<(), AllocError> {
        self.name.write(out)?;
        out.push(kind_byte(self.kind))?;
        Ok(())
    }
}

impl Field for ValueColumn {
    ghost read_at = { value_column_at };

    ghost spelling = { value_column };

    ghost Is = { λ (c : Measure). IsNamed c.name };

    fn read(alloc: Global, cursor: &mut Cursor<'_>) -> Result<Self, RecordError> {
        let name = cursor.name(alloc)?;
        let agg = cursor.agg()?;
        Ok(ValueColumn { name, agg })
    }

    fn write(&self, out: &mut Vec<u8>) -> Result<(), AllocError> {
        self.name.write(out)?;
        out.push(agg_byte(self.agg))?;
        Ok(())
    }
}

impl Field for u64 {
    ghost read_at = { long_at };

    ghost spelling = { long };

    ghost Is = { IsLong };

    fn read(_: Global, cursor: &mut Cursor<'_>) -> Result<Self, RecordError> {
        cursor.long()
    }

    fn write(&self, out: &mut Vec<u8>) -> Result<(), AllocError> {
        put_long(*self, out)
    }
}

impl Field for u128 {
    ghost read_at = { wide_at };

    ghost spelling = { total AsFourth };

    ghost Is = { IsTotal };

    fn read(_: Global, cursor: &mut Cursor<'_>) -> Result<Self, RecordError> {
        cursor.wide()
    }

    #[tactic(auto, unfolding(crate::specs::Spelling::wide))]
    fn write(&self, out: &mut Vec<u8>) -> Result<(), AllocError> {
        out.extend_from_slice(&self.to_be_bytes())
    }
}

impl Field for i128 {
    ghost read_at = { wide_amount_at };

    ghost spelling = { aggregate AsFourth };

    ghost Is = { IsAmount };

    fn read(_: Global, cursor: &mut Cursor<'_>) -> Result<Self, RecordError> {
        cursor.wide_amount()
    }

    fn write(&self, out: &mut Vec<u8>) -> Result<(), AllocError> {
        put_aggregate(*self, out)
    }
}

impl Field for i64 {
    ghost read_at = { amount_at };

    ghost spelling = { amount };

    ghost Is = { IsNarrow };

    fn read(_: Global, cursor: &mut Cursor<'_>) -> Result<Self, RecordError> {
        cursor.amount()
    }

    #[tactic(auto, unfolding(crate::specs::Spelling::long))]
    fn write(&self, out: &mut Vec<u8>) -> Result<(), AllocError> {
        out.extend_from_slice(&self.to_be_bytes())
    }
}

/// Appends a number of two bytes.
#[tactic(auto, unfolding(crate::specs::Spelling::half))]
pub fn put_half(number: u16, out: &mut Vec<u8>) -> Result<(), AllocError>
    ensures bytes { OnOk result (out.new.items ≡ out.old.items ++ half number) }
    ensures typed { IsHalf number }
{
    out.extend_from_slice(&number.to_be_bytes())
}

/// Appends a number of four bytes.
#[tactic(auto, unfolding(crate::specs::Spelling::word))]
pub fn put_word(number: u32, out: &mut Vec<u8>) -> Result<(), AllocError>
    ensures bytes { OnOk result (out.new.items ≡ out.old.items ++ word number) }
    ensures typed { IsWord number }
{
    out.extend_from_slice(&number.to_be_bytes())
}

// Appends a number of eight bytes.
#[tactic(auto, unfolding(crate::specs::Spelling::long))]
pub(crate) fn put_long(number: u64, out: &mut Vec<u8>) -> Result<(), AllocError>
    ensures bytes { OnOk result (out.new.items ≡ out.old.items ++ long number) }
    ensures typed { IsLong number }
{
    out.extend_from_slice(&number.to_be_bytes())
}

// Appends an aggregate: its two's complement in sixteen bytes.
pub(crate) fn put_aggregate(amount: Amount, out: &mut Vec<u8>) -> Result<(), AllocError>
    ensures bytes { OnOk result (out.new.items ≡ out.old.items ++ aggregate AsFourth amount) }
    ensures typed { IsAmount amount }
{
    out.extend_from_slice(&amount.to_be_bytes())?;
    Ok(())
}
