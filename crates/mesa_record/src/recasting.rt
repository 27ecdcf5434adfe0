// What a recast makes of a table, as fields.
ghost use Rattle.std.specs.Prelude.{◌≡◌, ◌++◌, ◌∷◌, IsTrue, OnOk};
ghost use Rattle.mesa_record_fields.specs.Reading.{Gives};
ghost use Rattle.mesa_record.specs.Reading.{recast_base_at, recast_base_if_any_at, recasting_at};
ghost use Rattle.mesa_record.specs.Rules.{AreTypedNames, AreTypedRecast, IsTypedRecastBase, IsTypedRecasting, are_recast_columns, are_recast_deltas, is_recast_base, is_recasting};
ghost use Rattle.mesa_record.specs.Spelling.{recast_base_if_any, recast_columns, recast_deltas, recasting_fields};

use crate::files::{read_files_if_any, write_files_if_any};
use crate::stated::{read_long, write_long};
use crate::{CheckpointSingle, Files};
use mesa_record_fields::{
    Cursor, Edition, Items, Name, RecordError, put_half, put_word, read_names, write_counted,
};
use std::alloc::{AllocError, Global};

/// The base that a recast leaves. It has no files where it has no rows.
#[derive(Drop)]
pub struct RecastBase {
    /// Its last version.
    pub to: u32,
    pub files: Option<Files>,
}

/// What a recast makes of a table: its new columns, and all of its deltas, whose rows are grouped by them. Its views stay, with the files that they had, and its cumulatives go.
#[derive(Drop)]
pub struct Recasting {
    pub table: u16,
    /// The first epoch of the new columns, and that of each delta.
    pub epoch: u32,
    /// The names of the columns, which are among those that the table had, in their new order.
    pub keys: Items<Name>,
    pub values: Items<Name>,
    pub base: Option<RecastBase>,
    pub singles: Items<CheckpointSingle>,
}

// ---- reading

#[tactic(auto, unfolding(crate::specs::Reading::recasting_at))]
pub(crate) fn read_recasting(
    alloc: Global,
    cursor: &mut Cursor<'_>,
) -> Result<Recasting, RecordError>
    ensures { Gives result cursor.new (recasting_at cursor.old) }
{
    let table = cursor.half()?;
    let epoch = cursor.word()?;
    let keys = read_names(alloc, cursor)?;
    let values = read_names(alloc, cursor)?;
    let base = read_base_if_any(alloc, cursor)?;
    let singles = read_long(alloc, cursor, Edition::Fourth, 0)?;
    Ok(Recasting {
        table,
        epoch,
        keys,
        values,
        base,
        singles,
    })
}

fn read_base_if_any(
    alloc: Global,
    cursor: &mut Cursor<'_>,
) -> Result<Option<RecastBase>, RecordError>
    ensures { Gives result cursor.new (recast_base_if_any_at cursor.old) }
{
    if cursor.flag()? {
        return Ok(Some(read_base(alloc, cursor)?));
    }
    Ok(None)
}

fn read_base(alloc: Global, cursor: &mut Cursor<'_>) -> Result<RecastBase, RecordError>
    ensures { Gives result cursor.new (recast_base_at cursor.old) }
{
    let to = cursor.word()?;
    let files = read_files_if_any(alloc, cursor, Edition::Fourth)?;
    Ok(RecastBase { to, files })
}

// ---- writing

pub(crate) fn write_recasting(recasting: &Recasting, out: &mut Vec<u8>) -> Result<(), AllocError>
    requires { IsTrue (is_recasting recasting.now) }
    ensures bytes { OnOk result (out.new.items ≡ out.old.items ++ 14 ∷ recasting_fields recasting.now) }
    ensures typed { OnOk result (IsTypedRecasting recasting.now) }
{
    out.push(14)?;
    write_columns(recasting, out)?;
    write_deltas(recasting, out)
}

// Appends the table, its new epoch and its columns.
#[tactic(auto, unfolding(crate::specs::Spelling::recast_columns))]
fn write_columns(recasting: &Recasting, out: &mut Vec<u8>) -> Result<(), AllocError>
    requires { IsTrue (are_recast_columns recasting.now) }
    ensures bytes { OnOk result (out.new.items ≡ out.old.items ++ recast_columns recasting.now) }
    ensures typed { OnOk result (AreTypedNames recasting.now) }
{
    put_half(recasting.table, out)?;
    put_word(recasting.epoch, out)?;
    write_counted(recasting.keys.as_slice(), out)?;
    write_counted(recasting.values.as_slice(), out)
}

#[tactic(auto, unfolding(crate::specs::Spelling::recast_deltas))]
fn write_deltas(recasting: &Recasting, out: &mut Vec<u8>) -> Result<(), AllocError>
    requires { IsTrue (are_recast_deltas recasting.now) }
    ensures bytes { OnOk result (out.new.items ≡ out.old.items ++ recast_deltas recasting.now) }
    ensures typed { OnOk result (AreTypedRecast recasting.now) }
{
    write_base_if_any(&recasting.base, out)?;
    write_long(recasting.singles.as_slice(), out)
}

fn write_base_if_any(base: &Option<RecastBase>, out: &mut Vec<u8>) -> Result<(), AllocError>
    requires { IsTrue (is_recast_base base.now) }
    ensures bytes { OnOk result (out.new.items ≡ out.old.items ++ recast_base_if_any base.now) }
    ensures typed { OnOk result (IsTypedRecastBase base.now) }
{
    match base {
        None => {
            out.push(0)?;
            Ok(())
        }
        Some(base) => {
            out.push(1)?;
            put_word(base.to, out)?;
            write_files_if_any(&base.files, out)
        }
    }
}
