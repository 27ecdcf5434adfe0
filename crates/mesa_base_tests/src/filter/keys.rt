// Keys that filters take, and short keys between which there may be such.
ghost use Rattle.std.specs.Prelude.{◌≡◌, [], ◌∷◌};
ghost use Rattle.mesa_key.specs.declared.KeyType.TheVariants as types;
ghost use Rattle.mesa_print.specs.mesa_columns.Columns.{kinds_of};

use crate::expected::expect_same;
use crate::filter::places::{key, schema};
use mesa_filter::Filter;
use mesa_key::short;
use mesa_list::TryCopy;
use mesa_schema::Schema;
use std::alloc::Global;
use std::process::Abort;

// A filter, a key's number and name, and whether the filter takes the key.
type Taken = (&'static str, i64, &'static str, bool);

static KEYS: [Taken; 22] = [
    ("", 1, "x", true),
    ("k=1|3", 3, "", true),
    ("k=1|3", 2, "", false),
    ("k=+5", 5, "", true),
    ("k=-5", -5, "", true),
    ("k=-5", 5, "", false),
    ("k>-2", -1, "", true),
    ("k<=2&name>=b", 2, "b", true),
    ("k<=2&name>=b", 3, "b", false),
    ("k<=2&name>=b", 2, "a", false),
    ("name>b", 0, "b", false),
    ("name>b", 0, "ba", true),
    ("name<b", 0, "azzz", true),
    ("name<a|b", 0, "a|a", true),
    ("name>=b", 0, "=c", false),
    ("name>%3db", 0, "=c", true),
    ("name=", 0, "", true),
    ("name=", 0, "a", false),
    ("name=a%26b|x%2cy", 0, "a&b", true),
    ("name=a%26b|x%2cy", 0, "x,y", true),
    ("name=a%26b|x%2cy", 0, "x", false),
    ("name=%26%7c%25%3d%3c%3e", 0, "&|%=<>", true),
];

// A copy of a filter.
fn filter(rt: &impl Abort, alloc: Global, schema: &Schema, text: &str) -> Filter
    ensures { result.kinds ≡ kinds_of schema.now }
{
    let filter = Filter::parse(alloc, schema, text.as_bytes()).expect(rt, "a filter");
    filter.copy().expect(rt, "memory")
}

// Stops the test of a key that is taken or left otherwise.
fn expect_taken(rt: &impl Abort, alloc: Global, schema: &Schema, case: &Taken)
    requires { kinds_of schema.now ≡ types.Int ∷ types.Text ∷ [] }
{
    let key = key(rt, alloc, case.1, case.2.as_bytes()).expect(rt, "memory");
    let filter = filter(rt, alloc, schema, case.0);
    expect_same(rt, &filter.matches(&key), &case.3, case);
}

#[test]
fn keys_that_filters_take(rt: HostRuntime) {
    let schema = schema(&rt, rt.alloc());
    for case in &KEYS {
        expect_taken(&rt, rt.alloc(), &schema, case);
    }
}

// A filter, the lowest and the highest of some keys, and whether it may take a key between their short keys.
type Between = (&'static str, (i64, &'static str), (i64, &'static str), bool);

static BETWEEN: [Between; 10] = [
    ("k=2", (0, ""), (1, ""), false),
    ("k=2", (0, ""), (2, ""), true),
    ("k=2", (2, ""), (3, ""), true),
    ("k<0", (0, ""), (1, ""), false),
    ("k<=0", (0, ""), (1, ""), true),
    ("name=x", (0, ""), (1, ""), true),
    ("name=x", (1, "a"), (1, "b"), false),
    ("name=x", (1, "a"), (1, "x"), true),
    ("name=x", (1, "a"), (1, "abcdefgh"), true),
    ("k=1&name=x", (2, "a"), (2, "x"), false),
];

// The short key of a number and a name.
fn short_key(rt: &impl Abort, alloc: Global, number: i64, name: &str) -> [u8; 16] {
    short(&key(rt, alloc, number, name.as_bytes()).expect(rt, "memory"))
}

// Stops the test of a case that is answered otherwise by short keys of two columns, or of none: those let everything through.
fn expect_between(rt: &impl Abort, alloc: Global, schema: &Schema, case: &Between) {
    let low = short_key(rt, alloc, case.1.0, case.1.1);
    let high = short_key(rt, alloc, case.2.0, case.2.1);
    let filter = Filter::parse(alloc, schema, case.0.as_bytes()).expect(rt, "a filter");
    expect_same(rt, &filter.may_meet(2, &low, &high), &case.3, case);
    expect_same(rt, &filter.may_meet(0, &low, &high), &true, case);
}

#[test]
fn short_keys_that_may_hold_such(rt: HostRuntime) {
    let schema = schema(&rt, rt.alloc());
    for case in &BETWEEN {
        expect_between(&rt, rt.alloc(), &schema, case);
    }
}
