// Copies of records.
ghost use Rattle.std.specs.Prelude.{◌≡◌, IfOk};
ghost use Rattle.mesa_record.specs.declared.record.Record.TheVariants as record_of;
ghost use Rattle.mesa_record.specs.Reading.{columns_in, deltas_in};

use crate::checkpoint::{StatedColumns, StatedDeltas, table_of};
use crate::{
    Checkpoint, CheckpointRange, CheckpointSingle, CheckpointTable, Files, Part, RecastBase,
    Recasting, Record, ViewRef,
};
use mesa_record_fields::{Items, KeyColumn, Name, TryCopy, ValueColumn};
use std::alloc::AllocError;

impl TryCopy for ViewRef {
    fn copy(&self) -> Result<Self, AllocError> {
        Ok(ViewRef {
            view: self.view,
            file: self.file.copy()?,
        })
    }
}

impl TryCopy for Files {
    fn copy(&self) -> Result<Self, AllocError> {
        let views = self.views.copy()?;
        Ok(Files {
            file: self.file.copy()?,
            views,
        })
    }
}

impl TryCopy for Part {
    fn copy(&self) -> Result<Self, AllocError> {
        let totals = self.totals.copy()?;
        Ok(Part {
            table: self.table,
            epoch: self.epoch,
            files: self.files.copy()?,
            totals,
        })
    }
}

impl TryCopy for Record {
    fn copy(&self) -> Result<Self, AllocError> {
        match self {
            Record::Run { number } => Ok(Record::Run { number: *number }),
            Record::Table { name, keys, values } => copy_table(name, keys, values),
            Record::View {
                table,
                name,
                keys,
                values,
            } => copy_view(*table, name, keys, values),
            Record::Alter { table, change } => Ok(Record::Alter {
                table: *table,
                change: change.copy()?,
            }),
            Record::Publish { version, parts } => Ok(Record::Publish {
                version: *version,
                parts: parts.copy()?,
            }),
            Record::Swap {
                table,
                base,
                from,
                to,
                epoch,
                files,
            } => Ok(Record::Swap {
                table: *table,
                base: *base,
                from: *from,
                to: *to,
                epoch: *epoch,
                files: copy_files(files)?,
            }),
            Record::Expire { version } => Ok(Record::Expire { version: *version }),
            Record::ExpireTable { table, version } => Ok(Record::ExpireTable {
                table: *table,
                version: *version,
            }),
            Record::Checkpoint(checkpoint) => Ok(Record::Checkpoint(checkpoint.copy()?)),
            Record::Recast(recasting) => Ok(Record::Recast(recasting.copy()?)),
        }
    }
}

fn copy_table(
    name: &Name,
    keys: &Items<KeyColumn>,
    values: &Items<ValueColumn>,
) -> Result<Record, AllocError>
    ensures { IfOk result (λ other. other ≡ record_of.Table name.now keys.now values.now) }
{
    Ok(Record::Table {
        name: name.copy()?,
        keys: keys.copy()?,
        values: values.copy()?,
    })
}

fn copy_view(
    table: u16,
    name: &Name,
    keys: &Items<Name>,
    values: &Items<Name>,
) -> Result<Record, AllocError>
    ensures { IfOk result (λ other. other ≡ record_of.View table name.now keys.now values.now) }
{
    Ok(Record::View {
        table,
        name: name.copy()?,
        keys: keys.copy()?,
        values: values.copy()?,
    })
}

fn copy_files(files: &Option<Files>) -> Result<Option<Files>, AllocError>
    ensures { IfOk result (λ other. other ≡ files.now) }
{
    match files {
        None => Ok(None),
        Some(files) => Ok(Some(files.copy()?)),
    }
}

// ---- recasts

impl TryCopy for RecastBase {
    fn copy(&self) -> Result<Self, AllocError> {
        Ok(RecastBase {
            to: self.to,
            files: copy_files(&self.files)?,
        })
    }
}

impl TryCopy for Recasting {
    fn copy(&self) -> Result<Self, AllocError> {
        let keys = self.keys.copy()?;
        let values = self.values.copy()?;
        let base = copy_recast_base(&self.base)?;
        let singles = self.singles.copy()?;
        Ok(Recasting {
            table: self.table,
            epoch: self.epoch,
            keys,
            values,
            base,
            singles,
        })
    }
}

fn copy_recast_base(base: &Option<RecastBase>) -> Result<Option<RecastBase>, AllocError>
    ensures { IfOk result (λ other. other ≡ base.now) }
{
    match base {
        None => Ok(None),
        Some(base) => Ok(Some(base.copy()?)),
    }
}

// ---- checkpoints

impl TryCopy for CheckpointRange {
    fn copy(&self) -> Result<Self, AllocError> {
        Ok(CheckpointRange {
            to: self.to,
            epoch: self.epoch,
            files: copy_files(&self.files)?,
        })
    }
}

impl TryCopy for CheckpointSingle {
    fn copy(&self) -> Result<Self, AllocError> {
        let totals = self.totals.copy()?;
        Ok(CheckpointSingle {
            version: self.version,
            epoch: self.epoch,
            files: self.files.copy()?,
            totals,
        })
    }
}

impl TryCopy for CheckpointTable {
    fn copy(&self) -> Result<Self, AllocError> {
        let name = self.name.copy()?;
        let columns = copy_columns(self)?;
        let deltas = copy_deltas(self)?;
        Ok(table_of(name, self.oldest, self.begins, columns, deltas))
    }
}

fn copy_columns(table: &CheckpointTable) -> Result<StatedColumns, AllocError>
    ensures { IfOk result (λ other. other ≡ columns_in table.now) }
{
    let keys = table.keys.copy()?;
    let values = table.values.copy()?;
    let changes = table.changes.copy()?;
    let views = table.views.copy()?;
    let totals = table.totals.copy()?;
    Ok(StatedColumns {
        keys,
        values,
        changes,
        views,
        totals,
    })
}

fn copy_deltas(table: &CheckpointTable) -> Result<StatedDeltas, AllocError>
    ensures { IfOk result (λ other. other ≡ deltas_in table.now) }
{
    let base = copy_base(&table.base)?;
    let cumulatives = table.cumulatives.copy()?;
    let singles = table.singles.copy()?;
    Ok(StatedDeltas {
        base,
        cumulatives,
        singles,
    })
}

impl TryCopy for Checkpoint {
    fn copy(&self) -> Result<Self, AllocError> {
        Ok(Checkpoint {
            number: self.number,
            run: self.run,
            floor: self.floor,
            versions: self.versions,
            tables: self.tables.copy()?,
        })
    }
}

fn copy_base(base: &Option<CheckpointRange>) -> Result<Option<CheckpointRange>, AllocError>
    ensures { IfOk result (λ other. other ≡ base.now) }
{
    match base {
        None => Ok(None),
        Some(base) => Ok(Some(base.copy()?)),
    }
}
