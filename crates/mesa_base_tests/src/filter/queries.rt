// Queries: what is asked, and why it is refused.
use crate::expected::expect_same;
use crate::filter::places::schema;
use mesa_filter::{Query, QueryError, QueryWords, VersionWord};
use mesa_list::{Items, TryCopy};
use mesa_schema::{Name, Schema, Words};
use std::alloc::Global;
use std::process::Abort;

fn words_of(rt: &impl Abort, alloc: Global, text: &str) -> Words {
    Items::from_bytes(alloc, text.as_bytes()).expect(rt, "memory")
}

// A query's group columns, value columns, filter and resume key.
type Asked = (&'static str, &'static str, &'static str, &'static str);

// A query of the relation `t`.
fn asks(rt: &impl Abort, alloc: Global, asked: &Asked) -> QueryWords {
    QueryWords {
        relation: words_of(rt, alloc, "t"),
        version: VersionWord::Latest,
        filter: words_of(rt, alloc, asked.2),
        group: words_of(rt, alloc, asked.0),
        values: words_of(rt, alloc, asked.1),
        limit: 2,
        resume: words_of(rt, alloc, asked.3),
    }
}

// A refusal's name, and its term or the first byte of its column.
type Told = (&'static str, u16);

// What a query's checks answer: the refusal's name, and its term or the first byte of its column.
fn told<T>(answer: &Result<T, QueryError>) -> Told {
    match answer {
        Ok(_) => ("", 0),
        Err(QueryError::NoColumn) => ("no_column", 0),
        Err(QueryError::ReplaceGroup { column }) => (
            "replace_group",
            column.bytes().first().copied().map_or(0, u16::from),
        ),
        Err(QueryError::BadFilter { term }) => ("bad_filter", *term),
        Err(QueryError::BadResume) => ("bad_resume", 0),
        Err(QueryError::Memory) => ("memory", 0),
    }
}

// What checking a query answers.
fn checked(alloc: Global, schema: &Schema, words: &QueryWords) -> Told {
    told(&Query::check(alloc, schema, words))
}

// What building a query of `t` at version 1 and epoch 0 answers.
fn built(rt: &impl Abort, alloc: Global, schema: &Schema, words: &QueryWords) -> Told {
    let t = Name::read(alloc, b"t").expect(rt, "a name");
    told(&Query::build(alloc, schema, &t, 1, 0, words))
}

// The first byte of the replace column's name.
const R: u16 = 114;

// A query, and what its checks answer.
type Case = (Asked, Told);

static REFUSALS: [Case; 16] = [
    (("", "", "", ""), ("", 0)),
    (("-", "v", "", ""), ("", 0)),
    (("-", "", "", ""), ("replace_group", R)),
    (("k", "v;r", "", ""), ("replace_group", R)),
    (("k;k", "r", "", ""), ("replace_group", R)),
    (("name;k;k", "r;r;v", "", ""), ("", 0)),
    (("z", "", "", ""), ("no_column", 0)),
    (("k;", "v", "", ""), ("no_column", 0)),
    (("v", "v", "", ""), ("no_column", 0)),
    (("k", "k", "", ""), ("no_column", 0)),
    (("-", "z", "&", ""), ("no_column", 0)),
    (("k", "r", "&", ""), ("replace_group", R)),
    (("k", "v", "&", ""), ("bad_filter", 1)),
    (("k", "v", "k=1&k=x", ""), ("bad_filter", 2)),
    (("k", "v", "kk=1", ""), ("no_column", 0)),
    (("k", "v", "k=x", ""), ("bad_filter", 1)),
];

// Stops the test of a query that checking, or building its copy, answers otherwise.
fn expect_told(rt: &impl Abort, alloc: Global, schema: &Schema, case: &Case, checks: Told) {
    let words = asks(rt, alloc, &case.0);
    expect_same(rt, &checked(alloc, schema, &words), &checks, case);
    let copy = words.copy().expect(rt, "memory");
    expect_same(rt, &built(rt, alloc, schema, &copy), &case.1, case);
}

#[test]
fn refusals_in_their_order(rt: HostRuntime) {
    let schema = schema(&rt, rt.alloc());
    for case in &REFUSALS {
        expect_told(&rt, rt.alloc(), &schema, case, case.1);
    }
}

const PASSES: Told = ("", 0);

const BAD: Told = ("bad_resume", 0);

static RESUMED: [Case; 20] = [
    (("k", "v", "", ""), PASSES),
    (("k", "v", "", "t/1/0/k/8000000000000002"), PASSES),
    (("k", "v", "", "t/1/0/k/800000000000000a"), PASSES),
    (("k", "v", "", "t/1/0/k/800000000000000A"), BAD),
    (("k", "v", "", "t/1/0/k/80000000000000"), BAD),
    (("k", "v", "", "t/1/0/k/800000000000000"), BAD),
    (("k", "v", "", "t/1/0/k/800000000000000200"), BAD),
    (("k", "v", "", "t/1/0/k/800000000000000g"), BAD),
    (("k", "v", "", "t/1/0/k/"), BAD),
    (("k", "v", "", "t/1/0/k"), BAD),
    (("k", "v", "", "u/1/0/k/8000000000000002"), BAD),
    (("k", "v", "", "t/2/0/k/8000000000000002"), BAD),
    (("k", "v", "", "t/1/1/k/8000000000000002"), BAD),
    (("k;k", "v", "", "t/1/0/k/8000000000000002"), BAD),
    (
        ("name;k", "v", "", "t/1/0/name;k/6162008000000000000002"),
        PASSES,
    ),
    (("name", "v", "", "t/1/0/name/616200"), PASSES),
    (("name", "v", "", "t/1/0/name/6162"), BAD),
    (("name", "v", "", "t/1/0/name/ff00"), BAD),
    (("-", "v", "", "t/1/0//"), PASSES),
    (("-", "v", "", "t/1/0//00"), BAD),
];

// Checking asks nothing of a resume key.
#[test]
fn resume_keys(rt: HostRuntime) {
    let schema = schema(&rt, rt.alloc());
    for case in &RESUMED {
        expect_told(&rt, rt.alloc(), &schema, case, PASSES);
    }
}

static COLUMNS: [u16; 2] = [1, 0];

static VALUES: [u16; 1] = [1];

static PREFIX: &[u8] = b"t/7/3/name;k/";

static ASKED: Asked = ("name;k", "r", "", "t/7/3/name;k/6162008000000000000002");

static KEY: [u8; 11] = [0x61, 0x62, 0, 0x80, 0, 0, 0, 0, 0, 0, 2];

// Stops the test of a query that isn't the one that is asked.
fn expect_parts(rt: &impl Abort, query: &Query) {
    expect_same(rt, &query.columns(), &COLUMNS.as_slice(), &"columns");
    expect_same(rt, &query.values(), &VALUES.as_slice(), &"values");
    expect_same(
        rt,
        &(query.version(), query.limit()),
        &(7, 2),
        &"version and limit",
    );
    expect_same(
        rt,
        &query.resume(),
        &Some(KEY.as_slice()),
        &"the query's resume key",
    );
    expect_same(rt, &query.prefix(), &PREFIX, &"prefix");
}

// The query of `t` at version 7 and epoch 3 that is asked.
fn query(rt: &impl Abort, alloc: Global) -> Query {
    let schema = schema(rt, alloc);
    let words = asks(rt, alloc, &ASKED);
    let t = Name::read(alloc, b"t").expect(rt, "a name");
    match Query::build(alloc, &schema, &t, 7, 3, &words) {
        Ok(query) => query,
        Err(_) => panic!(rt; "no query"),
    }
}

#[test]
fn parts_of_a_query(rt: HostRuntime) {
    let query = query(&rt, rt.alloc());
    expect_parts(&rt, &query);
    expect_parts(&rt, &query.copy().expect(&rt, "memory"));
}
