// Queries of a table, answered from two of its files.
ghost use Rattle.std.specs.List.{AllByRecursion};
ghost use Rattle.mesa_schema.specs.Changes.{columns_of};
ghost use Rattle.mesa_query.specs.mesa_columns.Columns.{Columns};
ghost use Rattle.mesa_filter.specs.Query.{IsQueryOf};
ghost use Rattle.mesa_open_files.specs.Pins.{IsPinnedInput};

use crate::query::inputs::{Source, own, source_of, two};
use crate::query::tables::{name, table};
use crate::query::vectors::{NEWER, OLDER, VECTORS};
use mesa_delta::FileError;
use mesa_disk::{FileId, FileReader};
use mesa_filter::{Query, QueryWords, VersionWord};
use mesa_key::KeyType;
use mesa_list::Items;
use mesa_model::Page;
use mesa_open_files::{Pinned, PinnedInput};
use mesa_query::answer;
use mesa_schema::{Evolving, Row, Words};
use std::alloc::{AllocError, Global};
use std::process::Abort;
use std::sync::Arc;
use std::test::Fail;
use std::thread::Threads;

fn words(rt: &impl Abort, alloc: Global, text: &str) -> Words {
    Items::from_bytes(alloc, text.as_bytes()).expect(rt, "room")
}

/// A filter, the group columns, and a resume key.
#[derive(Clone, Copy)]
pub struct Asked<'a> {
    pub filter: &'a str,
    pub group: &'a str,
    pub resume: &'a str,
}

/// All rows, grouped by `a`, behind a resume key.
pub fn by_a(resume: &str) -> Asked<'_> {
    Asked {
        filter: "",
        group: "a",
        resume,
    }
}

// A relation's rows that meet a filter, grouped, two of them, behind a resume key.
fn words_of(rt: &impl Abort, alloc: Global, relation: &str, asked: Asked) -> QueryWords {
    QueryWords {
        relation: words(rt, alloc, relation),
        version: VersionWord::Latest,
        filter: words(rt, alloc, asked.filter),
        group: words(rt, alloc, asked.group),
        values: Items::new(alloc),
        limit: 2,
        resume: words(rt, alloc, asked.resume),
    }
}

/// The query of that at version 3, of a relation of this name.
pub fn query_of(
    rt: &impl Abort,
    alloc: Global,
    relation: &Arc<Evolving>,
    text: &str,
    asked: Asked,
) -> Query
    ensures { IsQueryOf (columns_of relation.now.value) result }
{
    let name = name(rt, alloc, text);
    let words = words_of(rt, alloc, text, asked);
    let Ok(query) = Query::build(alloc, relation.present(), &name, 3, 0, &words) else {
        panic!(rt; "no query");
    };
    query
}

/// The page of a query from these files.
pub fn page_of<T: Threads + Sync, R: FileReader + Drop>(
    rt: &T,
    alloc: Global,
    query: Query,
    view: Option<u8>,
    inputs: Vec<PinnedInput<R>>,
) -> Result<Page, FileError>
    requires { (s : Columns) × IsQueryOf s query × AllByRecursion (IsPinnedInput R.bytes s view) inputs.items }
{
    let mut pinned = Pinned {
        query,
        version: 3,
        view,
        at: 0,
        inputs,
    };
    answer(rt, alloc, &mut pinned)
}

/// What the query is answered from an older and a newer file of the table `t`.
pub fn answered<T: Abort + Threads + Sync, R: FileReader + Drop>(
    rt: &T,
    alloc: Global,
    older: Source<R>,
    newer: Source<R>,
    resume: &str,
) -> Result<Page, FileError> {
    let table = table(rt, alloc, &["a", "b"], KeyType::Int);
    let query = query_of(rt, alloc, &table, "t", by_a(resume));
    let first = own(rt, alloc, older, &table);
    let second = own(rt, alloc, newer, &table);
    let inputs = two(rt, alloc, first, second);
    page_of(rt, alloc, query, None, inputs)
}

// Where a bit of a block is another than in the files.
#[derive(Clone, Copy)]
struct Turned {
    older: Option<usize>,
    newer: Option<usize>,
}

fn answer_of<T: Abort + Threads + Sync>(
    rt: &T,
    alloc: Global,
    turned: Turned,
    resume: &str,
) -> Result<Page, FileError> {
    let older = source_of(rt, alloc, &VECTORS[OLDER], turned.older);
    let newer = source_of(rt, alloc, &VECTORS[NEWER], turned.newer);
    answered(rt, alloc, older, newer, resume)
}

// The last byte of a row's key, and its value.
fn put_row(alloc: Global, out: &mut String, row: &Row) -> Result<(), AllocError> {
    let key = row.key.as_slice().last();
    let value = row.values.as_slice().first();
    let part = format!(in alloc; "{key:?} {value:?}, ")?;
    out.push_str(part.as_str())
}

fn put_page(alloc: Global, out: &mut String, page: &Page) -> Result<(), AllocError> {
    for row in page.rows.as_slice() {
        put_row(alloc, out, row)?;
    }
    let more = page.resume.is_some();
    let part = format!(in alloc; "more: {more}")?;
    out.push_str(part.as_str())
}

/// A page's rows, and whether a further row is there.
pub fn shown(alloc: Global, page: &Page) -> Result<String, AllocError> {
    let mut text = String::new(alloc);
    put_page(alloc, &mut text, page)?;
    Ok(text)
}

// A resume key, and the page behind it.
static PAGES: [(&str, &str); 2] = [
    ("", "Some(1) Some(10), Some(2) Some(25), more: true"),
    ("t/3/0/a/8000000000000002", "Some(3) Some(30), more: false"),
];

fn expect_page<T: Abort + Threads + Sync>(
    rt: &T,
    alloc: Global,
    resume: &str,
    want: &str,
) -> Result<(), Fail> {
    let turned = Turned {
        older: None,
        newer: None,
    };
    let page = answer_of(rt, alloc, turned, resume)?;
    let text = shown(alloc, &page)?;
    assert_eq!(rt; text.as_str(), want, "behind {resume}");
    Ok(())
}

#[test]
fn a_page_holds_its_limit(rt: HostRuntime) -> Result<(), Fail> {
    for (resume, want) in &PAGES {
        expect_page(&rt, rt.alloc(), resume, want)?;
    }
    Ok(())
}

// Where a bit of a block is another, and the id of the file of which that is told.
static DAMAGES: [(Turned, u64); 3] = [
    (
        Turned {
            older: Some(20),
            newer: None,
        },
        1,
    ),
    (
        Turned {
            older: None,
            newer: Some(20),
        },
        2,
    ),
    (
        Turned {
            older: Some(20),
            newer: Some(20),
        },
        1,
    ),
];

fn expect_damage<T: Abort + Threads + Sync>(rt: &T, alloc: Global, turned: Turned, id: u64) {
    match answer_of(rt, alloc, turned, "") {
        Err(FileError::Damaged(damage)) => {
            assert_eq!(rt; (damage.file, damage.place), (FileId::of(id), 0));
        }
        Err(error) => assert!(rt; false, "of file {id}: {error:?}"),
        Ok(_page) => assert!(rt; false, "of file {id}: a page"),
    }
}

#[test]
fn damage_is_told_of_the_first_file_that_has_it(rt: HostRuntime) {
    for (turned, id) in &DAMAGES {
        expect_damage(&rt, rt.alloc(), *turned, *id);
    }
}
