// Digests of rows, against digests that were computed elsewhere.
ghost use Rattle.std.specs.Prelude.{◌≡◌, IsTrue};
ghost use Rattle.std.specs.List.{AllByRecursion};
ghost use Rattle.mesa_value.specs.Agg.{IsNarrow};
ghost use Rattle.mesa_key.specs.Spelling.{IsKey, key_of, key_spelling};
ghost use Rattle.mesa_print.specs.mesa_columns.Columns.{kinds_of};
ghost use Rattle.mesa_print.specs.mesa_columns.Rows.{AreRowsOf, IsRowOf};

use crate::expected::expect_same;
use crate::schema::columns::name;
use mesa_digest::digests;
use mesa_key::{KeyType, reads_spellings, spells_key};
use mesa_list::Items;
use mesa_schema::{KeyColumn, Row, RowList, Schema, ValueColumn};
use mesa_value::{Agg, Amount};
use std::alloc::Global;
use std::process::Abort;

// ---- rows of the form of columns

// Whether bytes spell a key of these types.
fn is_key(kinds: &[KeyType], key: &[u8]) -> bool
    ensures key { IsTrue result → IsKey kinds.now (key_of kinds.now key.now) }
    ensures spelled { IsTrue result → key_spelling (key_of kinds.now key.now) ≡ key.now }
{
    reads_spellings();
    spells_key(kinds, key)
}

// Whether each value has 64 bits.
fn are_narrow(values: &[Amount]) -> bool
    ensures { IsTrue result → AllByRecursion IsNarrow values.now }
{
    for value in values {
        if value.unsigned_abs() >= 1 << 63 {
            return false;
        }
    }
    true
}

fn has_form(schema: &Schema, kinds: &[KeyType], row: &Row) -> bool
    requires { kinds.now ≡ kinds_of schema.now }
    ensures { IsTrue result → IsRowOf schema.now row.now }
{
    if row.values.len() != schema.values().len() || !are_narrow(row.values.as_slice()) {
        return false;
    }
    is_key(kinds, row.key.as_slice())
}

fn have_form(schema: &Schema, kinds: &[KeyType], rows: &[Row]) -> bool
    requires { kinds.now ≡ kinds_of schema.now }
    ensures { IsTrue result → AreRowsOf schema.now rows.now }
{
    for row in rows {
        if !has_form(schema, kinds, row) {
            return false;
        }
    }
    true
}

// ---- cases

// Rows of columns, and their digests: the names of the key columns and whether each is a text, the names of the value columns, the bytes of each row's key and its values.
struct Case {
    keys: &'static [(&'static [u8], bool)],
    values: &'static [&'static [u8]],
    rows: &'static [(&'static [u8], &'static [Amount])],
    ordered: [u8; 32],
    set: u128,
}

// No rows.
static EMPTY: Case = Case {
    keys: &[(b"k", false)],
    values: &[b"v"],
    rows: &[],
    ordered: [
        0xe3, 0xb0, 0xc4, 0x42, 0x98, 0xfc, 0x1c, 0x14, 0x9a, 0xfb, 0xf4, 0xc8, 0x99, 0x6f, 0xb9,
        0x24, 0x27, 0xae, 0x41, 0xe4, 0x64, 0x9b, 0x93, 0x4c, 0xa4, 0x95, 0x99, 0x1b, 0x78, 0x52,
        0xb8, 0x55,
    ],
    set: 0,
};

// The row of the key 1 with the value 5.
static ONE_ROW: Case = Case {
    keys: &[(b"k", false)],
    values: &[b"v"],
    rows: &[(b"\x80\0\0\0\0\0\0\x01", &[5])],
    ordered: [
        0xcf, 0x3b, 0xa3, 0xb5, 0xbe, 0x9f, 0x95, 0x6c, 0x0f, 0x92, 0xd3, 0xa5, 0x42, 0xc1, 0x87,
        0x65, 0x6c, 0x0f, 0x28, 0x5f, 0x2f, 0xf3, 0x9e, 0x72, 0xbb, 0x6f, 0x1e, 0x80, 0x1b, 0x64,
        0x0b, 0x9c,
    ],
    set: 0xff65_9108_c3a6_08fb_01a2_1988_985f_d7f6,
};

// Rows of `k int;c text`, and the values `v` and `k`, of which the latter has the name of a key column.
static TABLE: Case = Case {
    keys: &[(b"k", false), (b"c", true)],
    values: &[b"v", b"k"],
    rows: &[
        (b"\x80\0\0\0\0\0\0\x01x\0", &[5, -7]),
        (b"\x80\0\0\0\0\0\0\x02\0", &[-3, 9]),
    ],
    ordered: [
        0xc3, 0x80, 0x54, 0xe2, 0x6b, 0x76, 0x73, 0x5e, 0xba, 0x85, 0xad, 0xe7, 0xdc, 0x9d, 0x2c,
        0x1b, 0x01, 0x14, 0x29, 0x51, 0x51, 0x70, 0xd4, 0xd4, 0x9b, 0xeb, 0xc7, 0x78, 0xa4, 0x81,
        0x13, 0xc1,
    ],
    set: 0x1c5f_f754_b13d_9b9b_e939_dfbf_50d1_d316,
};

// The same rows with their columns in the other order, and so in the other order themselves.
static TURNED: Case = Case {
    keys: &[(b"c", true), (b"k", false)],
    values: &[b"k", b"v"],
    rows: &[
        (b"\0\x80\0\0\0\0\0\0\x02", &[9, -3]),
        (b"x\0\x80\0\0\0\0\0\0\x01", &[-7, 5]),
    ],
    ordered: [
        0x4f, 0x59, 0x26, 0x74, 0xc6, 0x24, 0x16, 0xf9, 0x40, 0x51, 0x94, 0xde, 0xdf, 0xa4, 0x7b,
        0x8a, 0xa0, 0xc5, 0x89, 0x79, 0x46, 0xc1, 0x93, 0xdb, 0xee, 0xe4, 0x27, 0x74, 0x6a, 0xda,
        0x1c, 0x7a,
    ],
    set: 0x1c5f_f754_b13d_9b9b_e939_dfbf_50d1_d316,
};

// ---- a case

fn key_columns(rt: &impl Abort, alloc: Global, case: &Case) -> Vec<KeyColumn> {
    let mut keys = Vec::new(alloc);
    for (text, is_text) in case.keys {
        let name = name(rt, alloc, text);
        let kind = if *is_text {
            KeyType::Text
        } else {
            KeyType::Int
        };
        keys.push(KeyColumn { name, kind }).expect(rt, "memory");
    }
    keys
}

fn value_columns(rt: &impl Abort, alloc: Global, case: &Case) -> Vec<ValueColumn> {
    let mut values = Vec::new(alloc);
    for text in case.values {
        let name = name(rt, alloc, text);
        let agg = Agg::Min;
        values.push(ValueColumn { name, agg }).expect(rt, "memory");
    }
    values
}

fn rows(rt: &impl Abort, alloc: Global, case: &Case) -> RowList {
    let mut rows = RowList::new(alloc);
    for (key, values) in case.rows {
        let mut row = Row {
            key: Items::from_bytes(alloc, key).expect(rt, "memory"),
            values: Items::new(alloc),
        };
        for value in *values {
            row.values.push(*value).expect(rt, "memory");
        }
        rows.push(row).expect(rt, "memory");
    }
    rows
}

fn kinds(rt: &impl Abort, alloc: Global, schema: &Schema) -> Vec<KeyType>
    ensures { result.items ≡ kinds_of schema.now }
{
    let kinds = schema.keys().iter().map(|column| column.kind);
    kinds.collect(alloc).expect(rt, "memory")
}

// Stops the test of rows that have other digests.
fn expect_digests(rt: &impl Abort, alloc: Global, case: &Case) {
    let keys = key_columns(rt, alloc, case);
    let values = value_columns(rt, alloc, case);
    let schema = Schema::build(keys, values).ok().expect(rt, "a schema");
    let rows = rows(rt, alloc, case);
    let kinds = kinds(rt, alloc, &schema);
    if !have_form(&schema, &kinds, rows.as_slice()) {
        panic!(rt; "rows of another form");
    }
    let found = digests(alloc, &rows, &schema).expect(rt, "memory");
    expect_same(rt, &found.rows, &(case.rows.len() as u64), &"rows");
    expect_same(rt, &found.ordered, &case.ordered, &"ordered");
    expect_same(rt, &found.set, &case.set, &"set");
}

#[test]
fn digests_of_rows(rt: HostRuntime) {
    for case in [&EMPTY, &ONE_ROW, &TABLE, &TURNED] {
        expect_digests(&rt, rt.alloc(), case);
    }
}
