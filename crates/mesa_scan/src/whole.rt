// A whole input scanned.
ghost use Rattle.std.specs.Prelude.{◌≡◌, ◌≤◌, ◌+◌, ◌++◌, ℕ, List, length, map, IfOk, OnOk, OnErr, IfErr, Some};
ghost use Rattle.mesa_disk.specs.mesa_io.Causes.{HasFaultCause};
ghost use Rattle.mesa_delta.specs.mesa_file.declared.damage.Damage.{Damage as AnyDamage};
ghost use Rattle.mesa_delta.specs.mesa_columns.declared.rows.Row.{Row as AnyRow};
ghost use Rattle.mesa_schema.specs.Changes.{columns_of};
ghost use Rattle.mesa_delta.specs.mesa_columns.Rows.{AreRowsOf};
ghost use Rattle.mesa_filter.specs.Filter.{filtered};
ghost use Rattle.mesa_delta.specs.declared.error.FileError.TheVariants as file_error;
ghost use Rattle.mesa_delta.specs.Reading.{IsIndexed, index_of};
ghost use Rattle.mesa_scan.specs.Cursors.{IsInput, IsSameInput, lift_by, reader_in};
ghost use Rattle.mesa_scan.specs.Allowing.{allowed_among};
ghost use Rattle.mesa_scan.specs.Damaged.{IsDamaged};
ghost use Rattle.mesa_scan.specs.Scanning.{IsFilterOf, keys_in};

use crate::matching::MatchingRows;
use crate::scanning::Scan;
use mesa_delta::{FileError, Input};
use mesa_disk::FileReader;
use mesa_filter::Filter;
use mesa_schema::{Items, Row, RowList};
use std::alloc::{AllocError, Global};
use std::mem::replace;

/// How many blocks of a file were read, of how many.
#[derive(Clone, Copy, Debug, PartialEq, Eq)]
pub struct ScanCount {
    pub blocks_read: u32,
    pub blocks: u32,
}

/// Adds an input's rows that match a filter, lifted to the present, in their order. A block is read only where its short key and the next one's allow a matching row. After an error the list is as it was.
pub fn scan<R: FileReader>(
    input: &mut Input<R>,
    filter: &Filter,
    out: &mut RowList,
) -> Result<ScanCount, FileError>
    requires input { IsInput R.bytes input.old }
    requires filter { IsFilterOf input.old filter.now }

    // Where the file is told and its index is true of it, these are its matching rows; on every store they have the present columns' form.
    ensures filtered { OnOk result ((b : List ℕ) (all : List AnyRow) → R.bytes (reader_in input.old) ≡ Some b → IsIndexed (index_of input.old.reader) all b
        → out.new ≡ out.old ++ filtered (columns_of input.old.evolving.value) filter.now.terms (map (lift_by input.old) all)) }
    ensures form { OnOk result ((more : List AnyRow) × (out.new ≡ out.old ++ more) × AreRowsOf (columns_of input.old.evolving.value) more) }
    ensures err { OnErr result (out.new ≡ out.old) }

    // Just the blocks were read that the filter allows.
    ensures blocks_read { IfOk result (λ c. c.blocks_read ≡ allowed_among filter.now (keys_in input.old) (index_of input.old.reader) c.blocks) }
    ensures blocks { IfOk result (λ c. c.blocks ≡ length (index_of input.old.reader).entries) }
    ensures reads { IfOk result (λ c. R.reads (reader_in input.new) ≤ R.reads (reader_in input.old) + c.blocks_read) }

    // The input stays one, of the same file.
    ensures input { IsInput R.bytes input.new }
    ensures same { IsSameInput R.bytes input.old input.new }
    ensures size { R.size (reader_in input.new) ≡ R.size (reader_in input.old) }

    // Read comes where the count of faults rose, and Damaged where the file isn't the recorded one.
    ensures cause { HasFaultCause (λ e. e ≡ file_error.Read) (R.faults (reader_in input.old)) (R.faults (reader_in input.new)) result }
    ensures damaged { IfErr result (λ e. (d : AnyDamage) → e ≡ file_error.Damaged d → IsDamaged R.bytes R.size input.old d) }
{
    let alloc = out.allocator();
    let mut rows = replace(out, Items::new(alloc)).into_vec();
    let before = rows.len();
    let scanned = scan_onto(alloc, input, filter, &mut rows);
    if scanned.is_err() {
        rows.truncate(before);
    }
    *out = Items::from_vec(rows);
    scanned
}

// Adds the matching rows. After an error some of them may be there.
fn scan_onto<R: FileReader>(
    alloc: Global,
    input: &mut Input<R>,
    filter: &Filter,
    rows: &mut Vec<Row>,
) -> Result<ScanCount, FileError>
    requires input { IsInput R.bytes input.old }
    requires filter { IsFilterOf input.old filter.now }
    ensures filtered { OnOk result ((b : List ℕ) (all : List AnyRow) → R.bytes (reader_in input.old) ≡ Some b → IsIndexed (index_of input.old.reader) all b
        → rows.new.items ≡ rows.old.items ++ filtered (columns_of input.old.evolving.value) filter.now.terms (map (lift_by input.old) all)) }
    ensures form { OnOk result ((more : List AnyRow) × (rows.new.items ≡ rows.old.items ++ more) × AreRowsOf (columns_of input.old.evolving.value) more) }
    ensures grows { (more : List AnyRow) × (rows.new.items ≡ rows.old.items ++ more) }
    ensures blocks_read { IfOk result (λ c. c.blocks_read ≡ allowed_among filter.now (keys_in input.old) (index_of input.old.reader) c.blocks) }
    ensures blocks { IfOk result (λ c. c.blocks ≡ length (index_of input.old.reader).entries) }
    ensures reads { IfOk result (λ c. R.reads (reader_in input.new) ≤ R.reads (reader_in input.old) + c.blocks_read) }
    ensures input { IsInput R.bytes input.new }
    ensures same { IsSameInput R.bytes input.old input.new }
    ensures size { R.size (reader_in input.new) ≡ R.size (reader_in input.old) }
    ensures cause { HasFaultCause (λ e. e ≡ file_error.Read) (R.faults (reader_in input.old)) (R.faults (reader_in input.new)) result }
    ensures damaged { IfErr result (λ e. (d : AnyDamage) → e ≡ file_error.Damaged d → IsDamaged R.bytes R.size input.old d) }
{
    let mut scan = Scan::of(alloc, input, filter)?;
    while !scan.is_over(input) {
        add_copies(alloc, &scan.block(input)?, rows)?;
    }
    Ok(ScanCount {
        blocks_read: scan.blocks_read(),
        blocks: input.reader.blocks(),
    })
}

// Adds copies of rows behind those that are there. After an error some of them may be there.
fn add_copies(alloc: Global, more: &MatchingRows, rows: &mut Vec<Row>) -> Result<(), AllocError>
    ensures added { OnOk result (rows.new.items ≡ rows.old.items ++ more.now) }
    ensures grows { (some : List AnyRow) × (rows.new.items ≡ rows.old.items ++ some) }
{
    for i in 0..more.len() {
        rows.push(more.row(i).to_row(alloc)?)?;
    }
    Ok(())
}
