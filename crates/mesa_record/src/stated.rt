// What a checkpoint states, as fields.
ghost use Rattle.std.specs.Prelude.{◌≡◌, ◌≤◌, ◌++◌, ◌∷◌, flat_map, length, IsTrue, OnOk};
ghost use Rattle.std.specs.List.{AllByRecursion, list_all};
ghost use Rattle.mesa_record_fields.specs.declared.edition.Edition.TheVariants.{Fourth};
ghost use Rattle.mesa_record_fields.specs.Reading.{Gives, change_at, half_at, many, sized_at, word_at};
ghost use Rattle.mesa_record.specs.Reading.{base_if_any_at, begins_at, oldest_at, stated_at, stated_columns_at, stated_deltas_at, stated_range_at, stated_single_at, stated_table_at, stated_view_at, stated_views_at};
ghost use Rattle.mesa_record_fields.specs.Rules.{IsTypedChange, is_change, is_long, is_short};
ghost use Rattle.mesa_record.specs.Rules.{AreTypedColumns, AreTypedDeltas, IsTypedBase, IsTypedCheckpoint, IsTypedRange, IsTypedSingle, IsTypedStatedView, IsTypedTable, are_stated_columns, are_stated_deltas, is_base_if_any, is_checkpoint, is_stated_range, is_stated_single, is_stated_table, is_stated_view};
ghost use Rattle.mesa_record_fields.specs.Spelling.{change as change_bytes, counted, half, sized, word};
ghost use Rattle.mesa_record.specs.Spelling.{base_if_any, checkpoint_fields, stated_columns, stated_deltas, stated_range, stated_single, stated_table, stated_view};

use crate::checkpoint::{StatedColumns, StatedDeltas, table_of};
use crate::files::{read_files, read_files_if_any, write_files, write_files_if_any};
use crate::{Checkpoint, CheckpointRange, CheckpointSingle, CheckpointTable};
use mesa_record_fields::{
    Change, Cursor, Edition, Field, Items, RecordError, View, put_half, put_word, read_change,
    read_key_columns, read_names, read_totals, read_value_columns, write_change, write_counted,
};
use std::alloc::{AllocError, Global};

/// A field that stands in a checkpoint's lists.
pub(crate) trait Stated: Sized + Drop {
    ghost use Rattle.std.specs.Prelude.{Bool, List, ℕ};
    ghost use Rattle.mesa_record_fields.specs.declared.edition.Edition.{Edition as AnyEdition};
    ghost use Rattle.mesa_record_fields.specs.Reading.{Left, Read};

    ghost read_at: { AnyEdition → ℕ → Left → Read Self };

    ghost spelling: { Self → List ℕ };

    /// What its type says of it.
    ghost Is: { Self → Type 0 };

    /// Whether its counts and lengths have room in their fields.
    ghost is_sound: { Self → Bool };

    /// The field, in a checkpoint with this floor: an edition that doesn't tell a table's oldest version takes the floor for it.
    fn read(
        alloc: Global,
        cursor: &mut Cursor<'_>,
        edition: Edition,
        floor: u32,
    ) -> Result<Self, RecordError>
        ensures { Gives result cursor.new (read_at edition floor cursor.old) };

    fn write(&self, out: &mut Vec<u8>) -> Result<(), AllocError>
        requires { IsTrue (is_sound self.now) }
        ensures bytes { OnOk result (out.new.items ≡ out.old.items ++ spelling self.now) }
        ensures typed { OnOk result (Is self.now) };
}

// So many fields, one after the other. The list grows with what is read, whatever the count claims.
fn read_stated<T: Stated>(
    alloc: Global,
    cursor: &mut Cursor<'_>,
    edition: Edition,
    floor: u32,
    count: u32,
) -> Result<Items<T>, RecordError>
    ensures { Gives result cursor.new (many (T.read_at edition floor) count cursor.old) }
{
    let mut fields = Items::new(alloc);
    for _ in 0..count {
        fields.push(T::read(alloc, cursor, edition, floor)?)?;
    }
    Ok(fields)
}

// Appends fields, one after the other.
fn write_stated<T: Stated>(fields: &[T], out: &mut Vec<u8>) -> Result<(), AllocError>
    requires { IsTrue (list_all T.is_sound fields.now) }
    ensures bytes { OnOk result (out.new.items ≡ out.old.items ++ flat_map T.spelling fields.now) }
    ensures typed { OnOk result (AllByRecursion T.Is fields.now) }
{
    for field in fields {
        field.write(out)?;
    }
    Ok(())
}

// A list behind its count in two bytes.
fn read_short<T: Stated>(
    alloc: Global,
    cursor: &mut Cursor<'_>,
    edition: Edition,
    floor: u32,
) -> Result<Items<T>, RecordError>
    ensures { Gives result cursor.new (sized_at half_at (T.read_at edition floor) cursor.old) }
{
    let count = cursor.half()?;
    read_stated(alloc, cursor, edition, floor, u32::from(count))
}

// A list behind its count in four bytes.
pub(crate) fn read_long<T: Stated>(
    alloc: Global,
    cursor: &mut Cursor<'_>,
    edition: Edition,
    floor: u32,
) -> Result<Items<T>, RecordError>
    ensures { Gives result cursor.new (sized_at word_at (T.read_at edition floor) cursor.old) }
{
    let count = cursor.word()?;
    read_stated(alloc, cursor, edition, floor, count)
}

// Appends how many fields there are, in two bytes, and then each.
fn write_short<T: Stated>(fields: &[T], out: &mut Vec<u8>) -> Result<(), AllocError>
    requires short { IsTrue (is_short fields.now) }
    requires sound { IsTrue (list_all T.is_sound fields.now) }
    ensures bytes { OnOk result (out.new.items ≡ out.old.items ++ sized half T.spelling fields.now) }
    ensures typed { OnOk result (AllByRecursion T.Is fields.now) }
{
    put_half(fields.len() as u16, out)?;
    write_stated(fields, out)
}

// Appends how many fields there are, in four bytes, and then each.
pub(crate) fn write_long<T: Stated>(fields: &[T], out: &mut Vec<u8>) -> Result<(), AllocError>
    requires long { IsTrue (is_long fields.now) }
    requires sound { IsTrue (list_all T.is_sound fields.now) }
    ensures bytes { OnOk result (out.new.items ≡ out.old.items ++ sized word T.spelling fields.now) }
    ensures typed { OnOk result (AllByRecursion T.Is fields.now) }
{
    put_word(fields.len() as u32, out)?;
    write_stated(fields, out)
}

// ---- the checkpoint

#[tactic(auto, unfolding(crate::specs::Reading::stated_at))]
pub(crate) fn read_checkpoint(
    alloc: Global,
    cursor: &mut Cursor<'_>,
    edition: Edition,
) -> Result<Checkpoint, RecordError>
    ensures { Gives result cursor.new (stated_at edition cursor.old) }
{
    let number = cursor.word()?;
    let run = cursor.word()?;
    let floor = cursor.word()?;
    let versions = cursor.word()?;
    let tables = read_short(alloc, cursor, edition, floor)?;
    Ok(Checkpoint {
        number,
        run,
        floor,
        versions,
        tables,
    })
}

pub(crate) fn write_checkpoint(checkpoint: &Checkpoint, out: &mut Vec<u8>) -> Result<(), AllocError>
    requires { IsTrue (is_checkpoint checkpoint.now) }
    ensures bytes { OnOk result (out.new.items ≡ out.old.items ++ 15 ∷ checkpoint_fields Fourth checkpoint.now) }
    ensures typed { OnOk result (IsTypedCheckpoint checkpoint.now) }
{
    out.push(15)?;
    put_word(checkpoint.number, out)?;
    put_word(checkpoint.run, out)?;
    put_word(checkpoint.floor, out)?;
    put_word(checkpoint.versions, out)?;
    write_short(checkpoint.tables.as_slice(), out)
}

// ---- its tables

impl Stated for CheckpointTable {
    ghost read_at = { stated_table_at };

    ghost spelling = { stated_table Fourth };

    ghost Is = { IsTypedTable };

    ghost is_sound = { is_stated_table };

    #[tactic(auto, unfolding(crate::specs::Reading::stated_table_at))]
    fn read(
        alloc: Global,
        cursor: &mut Cursor<'_>,
        edition: Edition,
        floor: u32,
    ) -> Result<Self, RecordError> {
        let name = cursor.name(alloc)?;
        let oldest = read_oldest(cursor, edition, floor)?;
        let begins = read_begins(cursor, edition)?;
        let columns = read_columns(alloc, cursor, edition, floor)?;
        let deltas = read_deltas(alloc, cursor, edition, floor)?;
        Ok(table_of(name, oldest, begins, columns, deltas))
    }

    #[tactic(auto, unfolding(crate::specs::Spelling::stated_table))]
    fn write(&self, out: &mut Vec<u8>) -> Result<(), AllocError> {
        self.name.write(out)?;
        put_word(self.oldest, out)?;
        put_word(self.begins, out)?;
        write_columns(self, out)?;
        write_deltas(self, out)
    }
}

// A table's oldest version: the floor, where the edition has no field for it.
fn read_oldest(cursor: &mut Cursor<'_>, edition: Edition, floor: u32) -> Result<u32, RecordError>
    ensures { Gives result cursor.new (oldest_at edition floor cursor.old) }
{
    match edition {
        Edition::First | Edition::Second => Ok(floor),
        Edition::Third | Edition::Fourth => cursor.word(),
    }
}

// A table's first epoch: 0, where the edition has no field for it.
fn read_begins(cursor: &mut Cursor<'_>, edition: Edition) -> Result<u32, RecordError>
    ensures { Gives result cursor.new (begins_at edition cursor.old) }
{
    match edition {
        Edition::First | Edition::Second | Edition::Third => Ok(0),
        Edition::Fourth => cursor.word(),
    }
}

#[tactic(auto, unfolding(crate::specs::Reading::stated_columns_at))]
fn read_columns(
    alloc: Global,
    cursor: &mut Cursor<'_>,
    edition: Edition,
    floor: u32,
) -> Result<StatedColumns, RecordError>
    ensures { Gives result cursor.new (stated_columns_at edition cursor.old) }
{
    let keys = read_key_columns(alloc, cursor)?;
    let values = read_value_columns(alloc, cursor)?;
    let changes = read_short(alloc, cursor, edition, floor)?;
    let views = read_views(alloc, cursor, edition, floor)?;
    let totals = read_totals(alloc, cursor, edition)?;
    Ok(StatedColumns {
        keys,
        values,
        changes,
        views,
        totals,
    })
}

#[tactic(auto, unfolding(crate::specs::Reading::stated_deltas_at))]
fn read_deltas(
    alloc: Global,
    cursor: &mut Cursor<'_>,
    edition: Edition,
    floor: u32,
) -> Result<StatedDeltas, RecordError>
    ensures { Gives result cursor.new (stated_deltas_at edition cursor.old) }
{
    let base = read_base(alloc, cursor, edition)?;
    let cumulatives = read_long(alloc, cursor, edition, floor)?;
    let singles = read_long(alloc, cursor, edition, floor)?;
    Ok(StatedDeltas {
        base,
        cumulatives,
        singles,
    })
}

#[tactic(auto, unfolding(crate::specs::Spelling::stated_columns))]
fn write_columns(table: &CheckpointTable, out: &mut Vec<u8>) -> Result<(), AllocError>
    requires { IsTrue (are_stated_columns table.now) }
    ensures bytes { OnOk result (out.new.items ≡ out.old.items ++ stated_columns Fourth table.now) }
    ensures typed { OnOk result (AreTypedColumns table.now) }
{
    write_counted(table.keys.as_slice(), out)?;
    write_counted(table.values.as_slice(), out)?;
    write_short(table.changes.as_slice(), out)?;
    write_views(table.views.as_slice(), out)?;
    write_counted(table.totals.as_slice(), out)
}

#[tactic(auto, unfolding(crate::specs::Spelling::stated_deltas))]
fn write_deltas(table: &CheckpointTable, out: &mut Vec<u8>) -> Result<(), AllocError>
    requires { IsTrue (are_stated_deltas table.now) }
    ensures bytes { OnOk result (out.new.items ≡ out.old.items ++ stated_deltas Fourth table.now) }
    ensures typed { OnOk result (AreTypedDeltas table.now) }
{
    write_base(&table.base, out)?;
    write_long(table.cumulatives.as_slice(), out)?;
    write_long(table.singles.as_slice(), out)
}

// ---- changes and views

impl Stated for Change {
    ghost read_at = { λ e floor. change_at };

    ghost spelling = { change_bytes };

    ghost Is = { IsTypedChange };

    ghost is_sound = { is_change };

    fn read(
        alloc: Global,
        cursor: &mut Cursor<'_>,
        _: Edition,
        _: u32,
    ) -> Result<Self, RecordError> {
        read_change(alloc, cursor)
    }

    fn write(&self, out: &mut Vec<u8>) -> Result<(), AllocError> {
        write_change(self, out)
    }
}

impl Stated for View {
    ghost read_at = { λ e floor. stated_view_at };

    ghost spelling = { stated_view };

    ghost Is = { IsTypedStatedView };

    ghost is_sound = { is_stated_view };

    fn read(
        alloc: Global,
        cursor: &mut Cursor<'_>,
        _: Edition,
        _: u32,
    ) -> Result<Self, RecordError> {
        let name = cursor.name(alloc)?;
        let keys = read_names(alloc, cursor)?;
        let values = read_names(alloc, cursor)?;
        Ok(View { name, keys, values })
    }

    fn write(&self, out: &mut Vec<u8>) -> Result<(), AllocError> {
        self.name.write(out)?;
        write_counted(self.keys.as_slice(), out)?;
        write_counted(self.values.as_slice(), out)
    }
}

fn read_views(
    alloc: Global,
    cursor: &mut Cursor<'_>,
    edition: Edition,
    floor: u32,
) -> Result<Items<View>, RecordError>
    ensures { Gives result cursor.new (stated_views_at cursor.old) }
{
    let count = cursor.count(8)?;
    read_stated(alloc, cursor, edition, floor, u32::from(count))
}

fn write_views(views: &[View], out: &mut Vec<u8>) -> Result<(), AllocError>
    requires few { length views.now ≤ 8 }
    requires sound { IsTrue (list_all is_stated_view views.now) }
    ensures bytes { OnOk result (out.new.items ≡ out.old.items ++ counted stated_view views.now) }
    ensures typed { OnOk result (AllByRecursion IsTypedStatedView views.now) }
{
    out.push(views.len() as u8)?;
    write_stated(views, out)
}

// ---- deltas

impl Stated for CheckpointRange {
    ghost read_at = { λ e floor. stated_range_at e };

    ghost spelling = { stated_range Fourth };

    ghost Is = { IsTypedRange };

    ghost is_sound = { is_stated_range };

    fn read(
        alloc: Global,
        cursor: &mut Cursor<'_>,
        edition: Edition,
        _: u32,
    ) -> Result<Self, RecordError> {
        read_range(alloc, cursor, edition)
    }

    fn write(&self, out: &mut Vec<u8>) -> Result<(), AllocError> {
        put_word(self.to, out)?;
        put_word(self.epoch, out)?;
        write_files_if_any(&self.files, out)
    }
}

fn read_range(
    alloc: Global,
    cursor: &mut Cursor<'_>,
    edition: Edition,
) -> Result<CheckpointRange, RecordError>
    ensures { Gives result cursor.new (stated_range_at edition cursor.old) }
{
    let to = cursor.word()?;
    let epoch = cursor.word()?;
    let files = read_files_if_any(alloc, cursor, edition)?;
    Ok(CheckpointRange { to, epoch, files })
}

fn read_base(
    alloc: Global,
    cursor: &mut Cursor<'_>,
    edition: Edition,
) -> Result<Option<CheckpointRange>, RecordError>
    ensures { Gives result cursor.new (base_if_any_at edition cursor.old) }
{
    if cursor.flag()? {
        return Ok(Some(read_range(alloc, cursor, edition)?));
    }
    Ok(None)
}

fn write_base(base: &Option<CheckpointRange>, out: &mut Vec<u8>) -> Result<(), AllocError>
    requires { IsTrue (is_base_if_any base.now) }
    ensures bytes { OnOk result (out.new.items ≡ out.old.items ++ base_if_any Fourth base.now) }
    ensures typed { OnOk result (IsTypedBase base.now) }
{
    match base {
        None => {
            out.push(0)?;
            Ok(())
        }
        Some(base) => {
            out.push(1)?;
            base.write(out)
        }
    }
}

impl Stated for CheckpointSingle {
    ghost read_at = { λ e floor. stated_single_at e };

    ghost spelling = { stated_single Fourth };

    ghost Is = { IsTypedSingle };

    ghost is_sound = { is_stated_single };

    #[tactic(auto, unfolding(crate::specs::Reading::stated_single_at))]
    fn read(
        alloc: Global,
        cursor: &mut Cursor<'_>,
        edition: Edition,
        _: u32,
    ) -> Result<Self, RecordError> {
        let version = cursor.word()?;
        let epoch = cursor.word()?;
        let files = read_files(alloc, cursor, edition)?;
        let totals = read_totals(alloc, cursor, edition)?;
        Ok(CheckpointSingle {
            version,
            epoch,
            files,
            totals,
        })
    }

    #[tactic(auto, unfolding(crate::specs::Spelling::stated_single))]
    fn write(&self, out: &mut Vec<u8>) -> Result<(), AllocError> {
        put_word(self.version, out)?;
        put_word(self.epoch, out)?;
        write_files(&self.files, out)?;
        write_counted(self.totals.as_slice(), out)
    }
}
