// Answers over the rows.
ghost use Rattle.std.specs.Prelude.{IfOk};
ghost use Rattle.mesa_filter.specs.Query.{IsQueryOf};
ghost use Rattle.mesa_bench.specs.Made.{HasColumns};

use crate::columns::{name, schema};
use crate::failure::Failure;
use crate::rows::{ITEMS, make_rows, row, rows_have_form};
use mesa_answer::{GroupError, Groups, answer};
use mesa_filter::{Query, QueryWords, VersionWord};
use mesa_list::Items;
use mesa_model::Page;
use mesa_schema::Schema;
use std::alloc::{AllocError, Global};

// A query that groups by the item.
fn words(alloc: Global) -> Result<QueryWords, AllocError> {
    let relation = Items::from_bytes(alloc, b"t")?;
    let group = Items::from_bytes(alloc, b"item")?;
    Ok(QueryWords {
        relation,
        version: VersionWord::Latest,
        filter: Items::new(alloc),
        group,
        values: Items::new(alloc),
        limit: ITEMS,
        resume: Items::new(alloc),
    })
}

fn query_of(alloc: Global, schema: &Schema, words: &QueryWords) -> Result<Query, Failure>
    ensures { IfOk result (IsQueryOf schema.now) }
{
    let relation = name(alloc, "t")?;
    match Query::build(alloc, schema, &relation, 1, 0, words) {
        Ok(query) => Ok(query),
        Err(_) => Err(Failure::Refused),
    }
}

fn query(alloc: Global, schema: &Schema) -> Result<Query, Failure>
    ensures { IfOk result (IsQueryOf schema.now) }
{
    let words = words(alloc)?;
    query_of(alloc, schema, &words)
}

// The page of rows that are put into their groups as they are made.
fn put_page(alloc: Global, schema: &Schema, query: &Query, rows: u32) -> Result<Page, GroupError>
    requires columns { HasColumns schema.now }
    requires asked { IsQueryOf schema.now query.now }
{
    rows_have_form();
    let mut groups = Groups::of(alloc, schema, query)?;
    for number in 0..rows {
        let row = row(alloc, number)?;
        groups.put(row.lend())?;
    }
    Ok(groups.into_page(query)?)
}

// The page of a list of rows.
fn answer_page(alloc: Global, schema: &Schema, query: &Query, rows: u32) -> Result<Page, AllocError>
    requires columns { HasColumns schema.now }
    requires asked { IsQueryOf schema.now query.now }
{
    let rows = make_rows(alloc, rows)?;
    answer(alloc, schema, query, &rows)
}

fn put_by(alloc: Global, schema: &Schema, rows: u32) -> Result<usize, Failure>
    requires { HasColumns schema.now }
{
    let query = query(alloc, schema)?;
    match put_page(alloc, schema, &query, rows) {
        Ok(page) => Ok(page.rows.len()),
        Err(_) => Err(Failure::Refused),
    }
}

fn answer_by(alloc: Global, schema: &Schema, rows: u32) -> Result<usize, Failure>
    requires { HasColumns schema.now }
{
    let query = query(alloc, schema)?;
    match answer_page(alloc, schema, &query, rows) {
        Ok(page) => Ok(page.rows.len()),
        Err(_) => Err(Failure::Memory),
    }
}

/// Puts rows into their groups one by one, and counts the rows of the page.
pub fn put_rows(alloc: Global, rows: u32) -> Result<usize, Failure> {
    let schema = schema(alloc)?;
    put_by(alloc, &schema, rows)
}

/// Answers a query over a list of rows, and counts the rows of the page.
pub fn answer_rows(alloc: Global, rows: u32) -> Result<usize, Failure> {
    let schema = schema(alloc)?;
    answer_by(alloc, &schema, rows)
}
