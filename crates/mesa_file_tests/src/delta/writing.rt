// The file of one row is written, and read again.
ghost use Rattle.std.specs.Prelude.{[], ◌∷◌};
ghost use Rattle.mesa_query.specs.mesa_columns.Lent.{lent};
ghost use Rattle.mesa_delta.specs.Writing.{HasTaken};
ghost use Rattle.mesa_block.specs.Rows.{IsRow};
ghost use Rattle.mesa_key.specs.declared.Format.TheVariants.{Two};

use crate::delta::files::{ONE_ID, TWO_DIGEST, TWO_FILE, count_rows, schema};
use crate::expected::expect_same;
use mesa_block::read_block;
use mesa_delta::{DeltaWriter, WriteError};
use mesa_disk::{
    Bench, Disk, Draft, FileId, FileReader, FileRef, Made, MemBench, MemDisk, MemMade, MemReader,
    OpenFault,
};
use mesa_key::{Format, KeyType};
use mesa_schema::{LentRow, Schema};
use std::alloc::Global;
use std::process::Abort;

type Written = Result<(MemMade, FileRef), WriteError>;

// Finishes the file of this row.
fn finish_row<M: Made, T: Draft<M>>(
    writer: DeltaWriter<M, T>,
    row: LentRow,
) -> Result<(M, FileRef), (WriteError, T)>
    requires { HasTaken T.bytes writer (lent row ∷ []) }
{
    let _row = row;
    writer.finish()
}

// Writes a file of the row, through a draft of which these calls fail.
fn write_row(
    rt: &impl Abort,
    alloc: Global,
    schema: &Schema,
    row: LentRow,
    calls: Vec<(u64, u64)>,
) -> Written
    requires { IsRow (record { format = Two; columns = schema.now }) (lent row) }
{
    let mut bench = MemBench::new(alloc, calls);
    let draft = bench.draft(FileId::of(7)).expect(rt, "a draft");
    let Ok(mut writer) = DeltaWriter::new(alloc, draft, FileId::of(ONE_ID), schema) else {
        panic!(rt; "no writer");
    };
    if let Err(error) = writer.push(row) {
        let _ = writer.abandon();
        return Err(error);
    }
    match finish_row(writer, row) {
        Ok(written) => Ok(written),
        Err((error, _)) => Err(error),
    }
}

// Writes the row with key 1 and value 5, as it is read from its block, through a draft of which these calls fail.
fn write_one(rt: &impl Abort, alloc: Global, fails: &[(u64, u64)]) -> Written {
    let calls = fails.to_vec(alloc).expect(rt, "memory");
    let schema = schema(rt, alloc, KeyType::Int);
    match read_block(alloc, &schema, Format::Two, &TWO_FILE[..27]) {
        Ok(block) => write_row(rt, alloc, &schema, block.row(0), calls),
        Err(_) => panic!(rt; "no block"),
    }
}

fn no_files(alloc: Global) -> MemDisk {
    MemDisk::new(
        alloc,
        Vec::new(alloc),
        Vec::new(alloc),
        Vec::new(alloc),
        Vec::new(alloc),
    )
}

// A reader of the file.
fn adopted(rt: &impl Abort, alloc: Global, made: MemMade) -> MemReader {
    let id = FileId::of(ONE_ID);
    let mut disk = no_files(alloc);
    let Err(OpenFault::Absent) = disk.reader(id) else {
        panic!(rt; "the file is there already");
    };
    disk.adopt(made, id).expect(rt, "an adopted file");
    disk.reader(id).expect(rt, "a reader")
}

// Stops the test of a file with other bytes.
fn expect_bytes(rt: &impl Abort, alloc: Global, reader: &mut MemReader) {
    let mut bytes = vec![in alloc; 0u8; reader.len() as usize].expect(rt, "memory");
    reader.read_at(0, &mut bytes).expect(rt, "a file");
    expect_same(rt, &bytes.as_slice(), &TWO_FILE.as_slice(), &"the bytes");
}

fn expect_file(rt: &impl Abort, file: &FileRef) {
    let counts = (file.len, file.rows, file.blocks);
    expect_same(rt, &counts, &(111, 1, 1), &"bytes, rows and blocks");
    expect_same(rt, &file.digest, &TWO_DIGEST, &"the digest");
}

#[test]
fn writes_the_file_of_one_row(rt: HostRuntime) {
    let alloc = rt.alloc();
    let (made, file) = write_one(&rt, alloc, &[]).ok().expect(&rt, "a file");
    expect_file(&rt, &file);
    let mut reader = adopted(&rt, alloc, made);
    expect_bytes(&rt, alloc, &mut reader);
    let schema = schema(&rt, alloc, KeyType::Int);
    expect_same(
        &rt,
        &count_rows(alloc, reader, &file, &schema),
        &Ok(1),
        &"how many rows are counted",
    );
}

// The draft is called for the block, for the tail and for the finished file.
static CALLS: [(u64, u64); 3] = [(0, 1), (0, 2), (0, 3)];

#[test]
fn tells_a_failed_draft(rt: HostRuntime) {
    for call in &CALLS {
        let failed = write_one(&rt, rt.alloc(), &[*call]).err();
        expect_same(&rt, &failed, &Some(WriteError::Draft), call);
    }
}
