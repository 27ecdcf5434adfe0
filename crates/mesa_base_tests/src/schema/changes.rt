// Changes of a table, and rows of its epochs at present.
use crate::expected::expect_same;
use crate::schema::columns::name;
use crate::schema::views::table;
use mesa_key::{KeyText, KeyType, KeyValue};
use mesa_list::Items;
use mesa_schema::{
    Change, ChangeError, Evolving, KeyColumn, Lift, MAX_CHANGES, Name, Row, ValueColumn,
};
use mesa_value::{Agg, Amount};
use std::alloc::Global;
use std::process::Abort;

// What becomes of a column.
#[derive(Clone, Copy)]
enum Made {
    // It is added as a value column with a default.
    Value(Agg, i64),
    // It is added as a key column whose default is a number.
    Number(KeyType, i64),
    // It is added as a text column whose default is the empty text.
    Text,
    // It is a value column and goes.
    Gone,
}

// A column's name, what becomes of it, and why that is refused; nothing where it isn't.
type Step = (&'static str, Made, &'static str);

// The text of no bytes.
fn empty_text(alloc: Global) -> KeyValue {
    let bytes = Items::new(alloc);
    if KeyText::allows(bytes.as_slice()) {
        return KeyValue::Text(KeyText::new(bytes));
    }
    KeyValue::Int(0)
}

fn added_key(name: Name, kind: KeyType, default: KeyValue) -> Change {
    let column = KeyColumn { name, kind };
    Change::AddKey { column, default }
}

fn change_of(alloc: Global, name: Name, made: Made) -> Change {
    match made {
        Made::Value(agg, default) => Change::AddValue {
            column: ValueColumn { name, agg },
            default,
        },
        Made::Number(kind, number) => added_key(name, kind, KeyValue::Int(number)),
        Made::Text => added_key(name, KeyType::Text, empty_text(alloc)),
        Made::Gone => Change::DropValue { name },
    }
}

// The name of a refusal; nothing where there is none.
fn told(answer: &Result<(), ChangeError>) -> &'static str {
    match answer {
        Ok(()) => "",
        Err(ChangeError::NameTwice) => "name_twice",
        Err(ChangeError::NoColumn) => "no_column",
        Err(ChangeError::BadDefault) => "bad_default",
        Err(ChangeError::LastValue) => "last_value",
        Err(ChangeError::InView { .. }) => "in_view",
        Err(ChangeError::TooManyColumns) => "too_many_columns",
        Err(ChangeError::EpochsFull) => "epochs_full",
        Err(ChangeError::Memory) => "memory",
    }
}

// Makes a change, and gives why it is refused.
fn changed(rt: &impl Abort, alloc: Global, table: &mut Evolving, step: &Step) -> &'static str {
    let name = name(rt, alloc, step.0.as_bytes());
    told(&table.change(change_of(alloc, name, step.1)))
}

// Makes one change after the other, and stops the test where one is answered otherwise.
fn invariant(rt: &impl Abort, alloc: Global, table: &mut Evolving, steps: &[Step]) {
    for step in steps {
        let found = changed(rt, alloc, table, step);
        expect_same(rt, &found, &step.2, &step.0);
    }
}

static COMES_AND_GOES: [Step; 2] = [("w", Made::Value(Agg::Max, 3), ""), ("w", Made::Gone, "")];

static FULL: [Step; 3] = [
    ("w", Made::Value(Agg::Max, 3), "epochs_full"),
    // What breaks another rule is refused for that.
    ("v", Made::Value(Agg::Max, 3), "name_twice"),
    ("w", Made::Gone, "no_column"),
];

// Makes 1,000 changes of a table, and tries more.
fn change_too_often(rt: &impl Abort, alloc: Global, table: &mut Evolving) {
    for _ in 0..MAX_CHANGES / 2 {
        invariant(rt, alloc, table, &COMES_AND_GOES);
    }
    expect_same(rt, &table.epoch(), &1000, &"the epoch");
    invariant(rt, alloc, table, &FULL);
    expect_same(rt, &table.epoch(), &1000, &"the epoch of a full table");
}

#[test]
fn the_1001st_change_is_refused(rt: HostRuntime) {
    let mut table = table(&rt, rt.alloc());
    change_too_often(&rt, rt.alloc(), &mut table);
}

static BROKEN: [Step; 5] = [
    ("w", Made::Value(Agg::Sum, 7), "bad_default"),
    ("d", Made::Number(KeyType::Text, 1), "bad_default"),
    ("k", Made::Number(KeyType::Int, 1), "name_twice"),
    ("r", Made::Gone, ""),
    ("v", Made::Gone, "last_value"),
];

// Changes that break a rule, and one that breaks none.
#[test]
fn changes_that_break_a_rule(rt: HostRuntime) {
    let mut table = table(&rt, rt.alloc());
    invariant(&rt, rt.alloc(), &mut table, &BROKEN);
    expect_same(&rt, &table.epoch(), &1, &"the epoch");
}

// The row `1, "x"` with the values 5 and 7, of the table's first columns.
fn first_row(rt: &impl Abort, alloc: Global) -> Row {
    let values = [5, 7].as_slice().to_vec(alloc).expect(rt, "memory");
    let key = Items::from_bytes(alloc, b"\x80\0\0\0\0\0\0\x01x\0").expect(rt, "memory");
    Row {
        key,
        values: Items::from_vec(values),
    }
}

static LINKED: [Step; 4] = [
    ("m", Made::Value(Agg::Min, 9), ""),
    ("e", Made::Text, ""),
    ("v", Made::Gone, ""),
    ("f", Made::Number(KeyType::Int, -1), ""),
];

static VALUES: [Amount; 2] = [7, 9];

static KEY: &[u8] = b"\x80\0\0\0\0\0\0\x01x\0\0\x7f\xff\xff\xff\xff\xff\xff\xff";

// Makes the first row one of the present, and stops the test where that is another.
fn lift_once(rt: &impl Abort, alloc: Global, lift: &Lift) {
    let row = lift.row(first_row(rt, alloc)).expect(rt, "a row");
    expect_same(
        rt,
        &row.values.as_slice(),
        &VALUES.as_slice(),
        &"the values",
    );
    expect_same(rt, &row.key.as_slice(), &KEY, &"the key");
}

#[test]
fn a_row_of_the_first_epoch_at_present(rt: HostRuntime) {
    let mut table = table(&rt, rt.alloc());
    invariant(&rt, rt.alloc(), &mut table, &LINKED);
    let lift = table.lift_from(0).expect(&rt, "a lift");
    lift_once(&rt, rt.alloc(), &lift);
    lift_once(&rt, rt.alloc(), &lift);
}
