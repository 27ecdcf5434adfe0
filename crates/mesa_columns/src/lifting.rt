// Rows of an epoch, lifted to the present.
ghost use Rattle.std.specs.Prelude.{◌≡◌, ℤ, List, [], ◌++◌, IfOk, OnOk, length, map};
ghost use Rattle.std.specs.Bool.{OnTrue};
ghost use Rattle.mesa_columns.specs.declared.rows.Row.{Row as AnyRow};
ghost use Rattle.mesa_columns.specs.Changes.{changed, lifted_by, lifted_once};
ghost use Rattle.mesa_key.specs.Spelling.{value_spelling};
ghost use Rattle.mesa_columns.specs.Lent.{lent};
ghost use Rattle.mesa_columns.specs.Lifting.{lifted_with, moved, value_from};

use crate::epochs::change_columns;
use crate::rows::{refill, room};
use crate::{Change, KeyColumn, LentRow, Row, ValueColumn, place_of};
use mesa_key::{Amount, Items, KeyBytes, KeyValue, Values, encode_int, encode_text};
use std::alloc::{AllocError, Global};

/// How rows of one epoch become rows of the present. It is made once for many rows, as for those of a file, and lifting a row costs the same through one change and through a thousand.
#[derive(Drop)]
pub struct Lift {
    // Where the values of a lifted row come from; None where they stay.
    sources: Option<Items<Source>>,
    // The bytes behind its key.
    suffix: Items<u8>,
}

// Where a value of a lifted row comes from.
#[derive(Clone, Copy)]
pub(crate) enum Source {
    // The row's value at this place.
    Kept(usize),
    Default(i64),
}

impl Lift {
    /// Leaves rows as they are.
    pub fn none(alloc: Global) -> Self
        ensures { (row : AnyRow) → lifted_with result row ≡ row }
    {
        Lift {
            sources: None,
            suffix: Items::new(alloc),
        }
    }

    /// Lifts rows of these columns through changes.
    pub fn through(
        alloc: Global,
        mut keys: Vec<KeyColumn>,
        mut values: Vec<ValueColumn>,
        changes: &[Change],
    ) -> Result<Self, AllocError>
        ensures { IfOk result (λ lift. (row : AnyRow) → length row.values ≡ length values.items → lifted_with lift row ≡ lifted_by (record { keys = keys.items; values = values.items }) changes.now row) }
    {
        let mut sources = kept(alloc, values.len())?;
        let mut suffix = Vec::new(alloc);
        for change in changes {
            move_further(&mut sources, &mut suffix, &values, change)?;
            change_columns(&mut keys, &mut values, change)?;
        }
        Ok(Lift {
            sources: Some(Items::from_vec(sources)),
            suffix: Items::from_vec(suffix),
        })
    }

    /// Whether rows stay as they are.
    pub fn is_none(&self) -> bool
        ensures { OnTrue result ((row : AnyRow) → lifted_with self.now row ≡ row) }
    {
        self.sources.is_none() && self.suffix.is_empty()
    }

    /// How many values a row has at present that has so many.
    pub fn count(&self, values: usize) -> usize
        ensures { (row : AnyRow) → length row.values ≡ values → length (lifted_with self.now row).values ≡ result }
    {
        match &self.sources {
            Some(sources) => sources.len(),
            None => values,
        }
    }

    /// Puts a row at present into another row, in the room that it has. After an Err that may hold anything.
    pub fn put(&self, row: LentRow, lifted: &mut Row) -> Result<(), AllocError>
        ensures { OnOk result (lifted.new ≡ lifted_with self.now (lent row.entry)) }
    {
        put_key(row.key, self.suffix.as_slice(), &mut lifted.key)?;
        match &self.sources {
            Some(sources) => put_moved(row.values, sources.as_slice(), &mut lifted.values),
            None => refill(&mut lifted.values, row.values),
        }
    }

    /// The row at present. One that stays as it is isn't copied.
    pub fn row(&self, row: Row) -> Result<Row, AllocError>
        ensures { IfOk result (λ lifted. lifted ≡ lifted_with self.now row) }
    {
        if self.is_none() {
            return Ok(row);
        }
        let mut lifted = Row::empty(self.suffix.allocator());
        self.put(row.lend(), &mut lifted)?;
        Ok(lifted)
    }
}

// All values of rows with so many, in their order.
fn kept(alloc: Global, count: usize) -> Result<Vec<Source>, AllocError>
    ensures same { IfOk result (λ sources. (values : List ℤ) → length values ≡ count → map (value_from values) sources.items ≡ values) }
    ensures count { IfOk result (λ sources. length sources.items ≡ count) }
{
    let mut sources = Vec::with_capacity(alloc, count)?;
    for place in 0..count {
        sources.push(Source::Kept(place))?;
    }
    Ok(sources)
}

// Moves rows through a change more, whose columns have these values before it.
fn move_further(
    sources: &mut Vec<Source>,
    suffix: &mut Vec<u8>,
    values: &[ValueColumn],
    change: &Change,
) -> Result<(), AllocError>
    requires { length sources.old.items ≡ length values.now }
    ensures rows { OnOk result ((row : AnyRow) → moved sources.new.items suffix.new.items row ≡ lifted_once (record { keys = []; values = values.now }) change.now (moved sources.old.items suffix.old.items row)) }
    ensures count { OnOk result (length sources.new.items ≡ length (changed (record { keys = []; values = values.now }) change.now).values) }
{
    match change {
        Change::AddValue { default, .. } => {
            sources.push(Source::Default(*default))?;
        }
        Change::DropValue { name } => {
            if let Some(place) = place_of(name.bytes(), values) {
                sources.remove(place);
            }
        }
        Change::AddKey { default, .. } => append_value(default, suffix)?,
    }
    Ok(())
}

// Appends the bytes of a key column's value.
fn append_value(value: &KeyValue, out: &mut Vec<u8>) -> Result<(), AllocError>
    ensures { OnOk result (out.new.items ≡ out.old.items ++ value_spelling value.now) }
{
    match value {
        KeyValue::Int(number) => encode_int(*number, out),
        KeyValue::Text(text) => encode_text(text.as_bytes(), out),
    }
}

// A key with bytes behind it, in place of what is there.
fn put_key(key: &[u8], suffix: &[u8], out: &mut KeyBytes) -> Result<(), AllocError>
    ensures { OnOk result (out.new ≡ key.now ++ suffix.now) }
{
    let mut bytes = room(out);
    bytes.extend_from_slice(key)?;
    bytes.extend_from_slice(suffix)?;
    *out = Items::from_vec(bytes);
    Ok(())
}

// Values from these sources, in place of what is there.
fn put_moved(values: &[Amount], sources: &[Source], out: &mut Values) -> Result<(), AllocError>
    ensures { OnOk result (out.new ≡ map (value_from values.now) sources.now) }
{
    let mut found = room(out);
    for source in sources {
        found.push(value_of(*source, values))?;
    }
    *out = Items::from_vec(found);
    Ok(())
}

fn value_of(source: Source, values: &[Amount]) -> Amount
    ensures { result ≡ value_from values.now source }
{
    match source {
        Source::Kept(place) => values.get(place).copied().unwrap_or(0),
        Source::Default(value) => Amount::from(value),
    }
}
