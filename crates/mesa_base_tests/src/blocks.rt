// Blocks that are read, and bytes that are none.
use crate::expected::expect_same;
use mesa_block::{BlockError, read_block};
use mesa_key::{Format, KeyType};
use mesa_schema::{KeyColumn, Name, Schema, ValueColumn};
use mesa_value::{Agg, Amount};
use std::alloc::Global;
use std::process::Abort;

fn name(rt: &impl Abort, alloc: Global, text: &str) -> Name {
    Name::read(alloc, text.as_bytes()).expect(rt, "a name")
}

fn keys(rt: &impl Abort, alloc: Global, kind: KeyType) -> Vec<KeyColumn> {
    let name = name(rt, alloc, "k");
    vec![in alloc; KeyColumn { name, kind }].expect(rt, "memory")
}

fn values(rt: &impl Abort, alloc: Global, agg: Agg) -> Vec<ValueColumn> {
    let name = name(rt, alloc, "v");
    vec![in alloc; ValueColumn { name, agg }].expect(rt, "memory")
}

// One key column of this type, and one value column.
fn schema(rt: &impl Abort, alloc: Global, kind: KeyType, agg: Agg) -> Schema {
    let keys = keys(rt, alloc, kind);
    let values = values(rt, alloc, agg);
    Schema::build(keys, values).ok().expect(rt, "a schema")
}

// The block of the row with key 1 and value 5, of the first format; of the second too where the value is no sum.
const ONE: [u8; 19] = [0, 0, 1, 0x80, 0, 0, 0, 0, 0, 0, 1, 0, 0, 0, 0, 0, 0, 0, 5];

// The same and a byte more.
const LONGER: [u8; 20] = [
    0, 0, 1, 0x80, 0, 0, 0, 0, 0, 0, 1, 0, 0, 0, 0, 0, 0, 0, 5, 0,
];

// The same without its last byte.
const SHORTER: [u8; 18] = [0, 0, 1, 0x80, 0, 0, 0, 0, 0, 0, 1, 0, 0, 0, 0, 0, 0, 0];

// Key 1 with value 5, twice.
const TWICE: [u8; 35] = [
    0, 0, 2, 0x80, 0, 0, 0, 0, 0, 0, 1, 0x80, 0, 0, 0, 0, 0, 0, 1, 0, 0, 0, 0, 0, 0, 0, 5, 0, 0, 0,
    0, 0, 0, 0, 5,
];

// The block of a sum of the second format.
const WIDE: [u8; 27] = [
    0, 0, 1, 0x80, 0, 0, 0, 0, 0, 0, 1, 0, 0, 0, 0, 0, 0, 0, 0, 0, 0, 0, 0, 0, 0, 0, 5,
];

// Value columns, a value of one as a format spells it, and the value.
type Value = (Format, Agg, &'static [u8], Amount);

static VALUES: [Value; 10] = [
    (Format::One, Agg::Sum, &[0, 0, 0, 0, 0, 0, 0, 5], 5),
    (Format::One, Agg::Sum, &[0xff; 8], -1),
    (Format::Two, Agg::Min, &[0, 0, 0, 0, 0, 0, 0, 5], 5),
    (Format::Two, Agg::Max, &[0xff; 8], -1),
    (
        Format::Two,
        Agg::Replace,
        &[0x80, 0, 0, 0, 0, 0, 0, 0],
        LEAST,
    ),
    (Format::Two, Agg::Sum, &[0xff; 16], -1),
    (
        Format::Two,
        Agg::Sum,
        &[0, 0, 0, 0, 0, 0, 0, 0, 0x80, 0, 0, 0, 0, 0, 0, 0],
        -LEAST,
    ),
    (
        Format::Two,
        Agg::Sum,
        &[
            0xff, 0xff, 0xff, 0xff, 0xff, 0xff, 0xff, 0xff, 0x7f, 0xff, 0xff, 0xff, 0xff, 0xff,
            0xff, 0xff,
        ],
        LEAST - 1,
    ),
    (
        Format::Two,
        Agg::Sum,
        &[
            0x7f, 0xff, 0xff, 0xff, 0xff, 0xff, 0xff, 0xff, 0xff, 0xff, 0xff, 0xff, 0xff, 0xff,
            0xff, 0xff,
        ],
        Amount::MAX,
    ),
    (
        Format::Two,
        Agg::Sum,
        &[0x80, 0, 0, 0, 0, 0, 0, 0, 0, 0, 0, 0, 0, 0, 0, 0],
        Amount::MIN,
    ),
];

// The least number of 64 bits.
const LEAST: Amount = -9_223_372_036_854_775_808;

// The block of the row with key 1 and a value that these bytes spell.
fn block_of(rt: &impl Abort, alloc: Global, value: &[u8]) -> Vec<u8> {
    let mut bytes = Vec::from_slice(alloc, &ONE[..11]).expect(rt, "memory");
    bytes.extend_from_slice(value).expect(rt, "memory");
    bytes
}

#[test]
fn reads_one_row(rt: HostRuntime) {
    for (format, agg, spelled, value) in &VALUES {
        let schema = schema(&rt, rt.alloc(), KeyType::Int, *agg);
        let bytes = block_of(&rt, rt.alloc(), spelled);
        let block = read_block(rt.alloc(), &schema, *format, &bytes).expect(&rt, "a block");
        assert_eq!(rt; block.len(), 1);
        let row = block.row(0);
        expect_same(&rt, &row.key, &&ONE[3..11], &"the row's key");
        expect_same(&rt, &row.values, &[*value].as_slice(), spelled);
    }
}

// Bytes that are no block, and why.
type Fault = (&'static [u8], BlockError);

static INTS: [Fault; 7] = [
    (&[0, 0], BlockError::Truncated),
    (&[1, 0, 0], BlockError::Compressed),
    (&[0, 0, 0, 0], BlockError::BadCount),
    (&[0, 4, 1, 0], BlockError::BadCount),
    (&TWICE, BlockError::OutOfOrder { row: 1 }),
    (&LONGER, BlockError::Trailing),
    (&SHORTER, BlockError::Truncated),
];

static TEXTS: [Fault; 1] = [(
    &[0, 0, 1, 1, 0xff, 0, 0, 0, 0, 0, 0, 0, 5],
    BlockError::BadText { row: 0 },
)];

// Each format's block is none of the other, and a value that is no sum has eight bytes in both.
static WIDE_SUMS: [Fault; 2] = [
    (&ONE, BlockError::Truncated),
    (&[1, 0, 0], BlockError::Compressed),
];

static NARROW: [Fault; 1] = [(&WIDE, BlockError::Trailing)];

// Stops the test of bytes in which another fault is found by a schema with a key column of this type and a value column.
fn expect_faults(
    rt: &impl Abort,
    alloc: Global,
    format: Format,
    kind: KeyType,
    agg: Agg,
    faults: &[Fault],
) {
    let schema = schema(rt, alloc, kind, agg);
    for (bytes, fault) in faults {
        let found = read_block(alloc, &schema, format, bytes).err();
        expect_same(rt, &found, &Some(*fault), bytes);
    }
}

#[test]
fn names_the_first_fault(rt: HostRuntime) {
    let alloc = rt.alloc();
    let (one, two) = (Format::One, Format::Two);
    let (ints, texts) = (KeyType::Int, KeyType::Text);
    expect_faults(&rt, alloc, one, ints, Agg::Sum, &INTS);
    expect_faults(&rt, alloc, one, texts, Agg::Sum, &TEXTS);
    expect_faults(&rt, alloc, two, ints, Agg::Sum, &WIDE_SUMS);
    expect_faults(&rt, alloc, one, ints, Agg::Sum, &NARROW);
    expect_faults(&rt, alloc, two, ints, Agg::Min, &NARROW);
}
