// The files of deltas, and what batches bring to tables, as fields.
ghost use Rattle.std.specs.Prelude.{◌≡◌, ◌++◌, IsTrue, OnOk};
ghost use Rattle.mesa_record_fields.specs.declared.edition.Edition.TheVariants.{Fourth};
ghost use Rattle.mesa_record_fields.specs.Reading.{Gives};
ghost use Rattle.mesa_record.specs.Reading.{files_at, files_if_any_at, part_at, part_number, view_number, view_ref_at, view_refs_at};
ghost use Rattle.mesa_record_fields.specs.Rules.{is_file_ref};
ghost use Rattle.mesa_record.specs.Rules.{AreTypedFiles, IsTypedFiles, IsTypedPart, IsTypedView, are_files, are_files_if_any, is_part};
ghost use Rattle.mesa_record.specs.Spelling.{files, files_if_any, part, view_ref};

use crate::{Files, Part, ViewRef};
use mesa_record_fields::{
    Cursor, Edition, Items, Numbered, RecordError, put_half, put_word, read_file, read_rising,
    read_totals, write_counted, write_file, write_rising,
};
use std::alloc::{AllocError, Global};

// ---- reading

#[tactic(auto, unfolding(crate::specs::Reading::files_at))]
pub(crate) fn read_files(
    alloc: Global,
    cursor: &mut Cursor<'_>,
    edition: Edition,
) -> Result<Files, RecordError>
    ensures { Gives result cursor.new (files_at edition cursor.old) }
{
    let file = read_file(alloc, cursor, edition)?;
    let views = read_views(alloc, cursor, edition)?;
    Ok(Files { file, views })
}

fn read_views(
    alloc: Global,
    cursor: &mut Cursor<'_>,
    edition: Edition,
) -> Result<Items<ViewRef>, RecordError>
    ensures { Gives result cursor.new (view_refs_at edition cursor.old) }
{
    let count = cursor.count(8)?;
    read_rising(alloc, cursor, edition, count as u16)
}

pub(crate) fn read_files_if_any(
    alloc: Global,
    cursor: &mut Cursor<'_>,
    edition: Edition,
) -> Result<Option<Files>, RecordError>
    ensures { Gives result cursor.new (files_if_any_at edition cursor.old) }
{
    if cursor.flag()? {
        return Ok(Some(read_files(alloc, cursor, edition)?));
    }
    Ok(None)
}

impl Numbered for ViewRef {
    ghost number_of = { view_number };

    ghost read_at = { view_ref_at };

    ghost spelling = { view_ref Fourth };

    ghost Is = { IsTypedView };

    ghost is_sound = { λ v. is_file_ref v.file };

    fn number(&self) -> u16 {
        self.view as u16
    }

    fn read(
        alloc: Global,
        cursor: &mut Cursor<'_>,
        edition: Edition,
        least: u32,
    ) -> Result<Self, RecordError> {
        let at = cursor.at();
        let view = cursor.byte()?;
        if (view as u32) < least {
            return Err(RecordError::BadField { at });
        }
        let file = read_file(alloc, cursor, edition)?;
        Ok(ViewRef { view, file })
    }

    fn write(&self, out: &mut Vec<u8>) -> Result<(), AllocError> {
        out.push(self.view)?;
        write_file(&self.file, out)
    }
}

impl Numbered for Part {
    ghost number_of = { part_number };

    ghost read_at = { part_at };

    ghost spelling = { part Fourth };

    ghost Is = { IsTypedPart };

    ghost is_sound = { is_part };

    fn number(&self) -> u16 {
        self.table
    }

    fn read(
        alloc: Global,
        cursor: &mut Cursor<'_>,
        edition: Edition,
        least: u32,
    ) -> Result<Self, RecordError> {
        let at = cursor.at();
        let table = cursor.half()?;
        if (table as u32) < least {
            return Err(RecordError::BadField { at });
        }
        let epoch = cursor.word()?;
        let files = read_files(alloc, cursor, edition)?;
        let totals = read_totals(alloc, cursor, edition)?;
        Ok(Part {
            table,
            epoch,
            files,
            totals,
        })
    }

    fn write(&self, out: &mut Vec<u8>) -> Result<(), AllocError> {
        put_half(self.table, out)?;
        put_word(self.epoch, out)?;
        write_files(&self.files, out)?;
        write_counted(self.totals.as_slice(), out)
    }
}

// ---- writing

#[tactic(auto, unfolding(crate::specs::Spelling::files))]
pub(crate) fn write_files(all: &Files, out: &mut Vec<u8>) -> Result<(), AllocError>
    requires { IsTrue (are_files all.now) }
    ensures bytes { OnOk result (out.new.items ≡ out.old.items ++ files Edition.Fourth all.now) }
    ensures typed { OnOk result (IsTypedFiles all.now) }
{
    write_file(&all.file, out)?;
    out.push(all.views.len() as u8)?;
    write_rising(all.views.as_slice(), out)
}

pub(crate) fn write_files_if_any(all: &Option<Files>, out: &mut Vec<u8>) -> Result<(), AllocError>
    requires { IsTrue (are_files_if_any all.now) }
    ensures bytes { OnOk result (out.new.items ≡ out.old.items ++ files_if_any Edition.Fourth all.now) }
    ensures typed { OnOk result (AreTypedFiles all.now) }
{
    match all {
        None => {
            out.push(0)?;
            Ok(())
        }
        Some(all) => {
            out.push(1)?;
            write_files(all, out)
        }
    }
}
