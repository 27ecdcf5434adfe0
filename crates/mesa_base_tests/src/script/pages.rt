// The lines of pages.
ghost use Rattle.std.specs.Prelude.{[], ◌∷◌, IfOk, IfSome, IsTrue};
ghost use Rattle.std.specs.List.{AllByRecursion};
ghost use Rattle.mesa_key.specs.Spelling.{IsKey, is_spelling};
ghost use Rattle.mesa_key.specs.Text.{is_key_text};
ghost use Rattle.mesa_print.specs.mesa_columns.declared.rows.Row.{Row as AnyRow};

use crate::expected::expect_same;
use mesa_key::{Amount, Key, KeyBytes, KeyText, KeyType, KeyValue, encode, reads_back};
use mesa_list::Items;
use mesa_model::Page;
use mesa_print::render;
use mesa_schema::{Row, RowList};
use std::alloc::{AllocError, Global};
use std::process::Abort;
use std::str;

// The types of a number and a text.
const TYPES: [KeyType; 2] = [KeyType::Int, KeyType::Text];

// The bytes of a key of these types.
fn key_bytes(alloc: Global, types: &[KeyType], key: &Key) -> Result<KeyBytes, AllocError>
    requires { IsKey types.now key.now }
    ensures { IfOk result (λ bytes. IsTrue (is_spelling types.now bytes)) }
{
    reads_back();
    let mut bytes = Vec::new(alloc);
    encode(key, &mut bytes)?;
    Ok(Items::from_vec(bytes))
}

// A row of a number and a text, with one value.
fn row(alloc: Global, number: i64, text: &[u8], value: Amount) -> Result<Row, AllocError>
    requires { IsTrue (is_key_text text.now) }
    ensures { IfOk result (λ row. IsTrue (is_spelling (KeyType.Int ∷ KeyType.Text ∷ []) row.key)) }
{
    let mut key = Items::new(alloc);
    key.push(KeyValue::Int(number))?;
    key.push(KeyValue::Text(KeyText::new(Items::from_bytes(alloc, text)?)))?;
    let key = key_bytes(alloc, &TYPES, &key)?;
    Ok(Row {
        key,
        values: Items::from_vec(vec![in alloc; value]?),
    })
}

// Rows of a day and a country.
fn rows(alloc: Global) -> Result<Option<RowList>, AllocError>
    ensures { IfOk result (λ o. IfSome o (λ rows. AllByRecursion (λ (row : AnyRow). IsTrue (is_spelling (KeyType.Int ∷ KeyType.Text ∷ []) row.key)) rows)) }
{
    let (first, second) = (b"US".as_slice(), b"a,\"b\"".as_slice());
    if !KeyText::allows(first) || !KeyText::allows(second) {
        return Ok(None);
    }
    let mut rows = Items::new(alloc);
    rows.push(row(alloc, 20131231, first, 10)?)?;
    rows.push(row(alloc, -5, second, -1)?)?;
    Ok(Some(rows))
}

// A page's prefix of its resume key, how many rows it has, whether more follow, and its lines.
type Printed = (&'static [u8], u32, bool, &'static str);

// Stops the test of a page that is printed otherwise.
fn expect(rt: &impl Abort, alloc: Global, page: &Page, want: &Printed)
    requires { AllByRecursion (λ (row : AnyRow). IsTrue (is_spelling (KeyType.Int ∷ KeyType.Text ∷ []) row.key)) page.now.rows }
{
    let printed = render(alloc, page, &TYPES, want.0).expect(rt, "memory");
    expect_same(rt, &printed.rows, &want.1, &"the rows of a page");
    expect_same(rt, &printed.more, &want.2, &"whether more rows follow");
    let lines = str::from_utf8(printed.body.as_slice());
    expect_same(rt, &lines, &Ok(want.3), &"the lines of a page");
}

static TWO_ROWS: Printed = (
    b"a/1/0/day;country/",
    2,
    true,
    "20131231,US,10\n-5,\"a,\"\"b\"\"\",-1\nresume a/1/0/day;country/7ffffffffffffffb612c22622200\n",
);

static LAST: &[u8] = b"\x7f\xff\xff\xff\xff\xff\xff\xfba,\"b\"\0";

#[test]
fn prints_pages(rt: HostRuntime) {
    let alloc = rt.alloc();
    let resume = Items::from_bytes(alloc, LAST).expect(&rt, "memory");
    let rows = rows(alloc).expect(&rt, "memory");
    let page = Page {
        version: 1,
        rows: rows.expect(&rt, "texts"),
        resume: Some(resume),
    };
    expect(&rt, alloc, &page, &TWO_ROWS);
}

static NO_ROWS: Printed = (b"a/0/0/day;country/", 0, false, "");

#[test]
fn prints_empty_pages(rt: HostRuntime) {
    let alloc = rt.alloc();
    let page = Page {
        version: 0,
        rows: Items::new(alloc),
        resume: None,
    };
    expect(&rt, alloc, &page, &NO_ROWS);
}
