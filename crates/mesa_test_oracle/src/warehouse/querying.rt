// Answering queries.
ghost use Rattle.std.specs.Prelude.{◌≡◌, ◌<◌, length, None, Ok, Err, IfOk, IfErr, IsTrue, MatchResult};
ghost use Rattle.std.specs.List.{AllByRecursion};
ghost use Rattle.mesa_list.specs.Checks.{refused_as};
ghost use Rattle.mesa_key.specs.Spelling.{is_spelling};
ghost use Rattle.mesa_oracle_tables.specs.mesa_columns.declared.rows.Row.{Row as AnyRow};
ghost use Rattle.mesa_schema.specs.Changes.{epoch_of};
ghost use Rattle.mesa_oracle_tables.specs.mesa_columns.Rows.{AreRowsOf};
ghost use Rattle.mesa_answer.specs.Answering.{grouped_columns};
ghost use Rattle.mesa_filter.specs.Query.{IsQueryOf, group_kinds, query_of};
ghost use Rattle.mesa_model.specs.Page.{page_of};
ghost use Rattle.mesa_model.specs.Query.{answer_rows, query_answer, store_asked as tables_asked, version_seen as version_of};
ghost use Rattle.mesa_model.specs.Refusals.{query_refusal};
ghost use Rattle.mesa_model.specs.Relations.{relation_columns, relation_content};
ghost use Rattle.mesa_model.specs.Warehouse.{table_at};
ghost use Rattle.mesa_binding.specs.Built.{IsBuiltOf};
ghost use Rattle.mesa_oracle_tables.specs.Found.{IsThere, relation_seen};
ghost use Rattle.mesa_test_oracle.specs.Plain.{answer_as, answer_of};
ghost use Rattle.mesa_binding.specs.Told.{IsDue};

use super::PlainWarehouse;
use crate::pins::find_pin;
use mesa_answer::{answer, view_rows};
use mesa_binding::{Failure, build_query, check_query};
use mesa_filter::{Query, QueryWords, VersionWord};
use mesa_key::reads_back;
use mesa_list::TryCopy;
use mesa_model::{Page, Refusal};
use mesa_oracle_tables::{Place, PlainStore};
use mesa_schema::Schema;
use std::alloc::{AllocError, Global};

impl PlainWarehouse {
    /// The page that a query asks for, and the query as it was checked, which says how the page's rows are printed; or the refusal.
    pub fn query(
        &self,
        session: u16,
        words: &QueryWords,
    ) -> Result<Result<(Page, Query), Refusal>, AllocError>
        ensures answered { IfOk result (λ answer. query_answer self.now session words.now ≡ answer_as answer) }
        ensures spelled { IfOk result (λ answer. IfOk answer (λ found. AllByRecursion (λ (row : AnyRow). IsTrue (is_spelling (group_kinds found.1) row.key)) found.0.rows)) }
    {
        match self.try_query(session, words) {
            Ok(found) => Ok(Ok(found)),
            Err(Failure::Refused(refusal)) => Ok(Err(refusal)),
            Err(Failure::Memory) => Err(AllocError),
        }
    }

    fn try_query(&self, session: u16, words: &QueryWords) -> Result<(Page, Query), Failure>
        ensures answered { IfOk result (λ found. query_answer self.now session words.now ≡ Ok (answer_of found)) }
        ensures refused { IfErr result (IsDue (query_answer self.now session words.now)) }
        ensures spelled { IfOk result (λ found. AllByRecursion (λ (row : AnyRow). IsTrue (is_spelling (group_kinds found.1) row.key)) found.0.rows) }
    {
        let store = self.tables_asked(session, words.version)?;
        let Some(place) = store.find(words.relation.as_slice()) else {
            return Err(Failure::Refused(Refusal::NoTable { row: None }));
        };
        let schema = schema_at(self.alloc, store, place)?;
        check_query(self.alloc, &schema, words)?;
        let version = self.version_seen(store, place.table, words.version)?;
        answer_at(self.alloc, store, place, &schema, version, words)
    }

    // The tables that a query sees: those of the pin that it names, or the present ones.
    fn tables_asked(&self, session: u16, asked: VersionWord) -> Result<&PlainStore, Refusal>
        ensures opened { self.now.closed ≡ None }
        ensures store { MatchResult result (λ store. tables_asked self.now session asked ≡ Ok store.now.store) (λ refusal. tables_asked self.now session asked ≡ Err refusal) }
    {
        match asked {
            VersionWord::Latest | VersionWord::At(_) => Ok(&self.store),
            VersionWord::Pin(token) => match find_pin(&self.pins, session, token) {
                Some(pin) => Ok(&pin.store),
                None => Err(Refusal::NoPin { token }),
            },
        }
    }

    // The version that a query asks of one of these tables.
    fn version_seen(
        &self,
        store: &PlainStore,
        table: usize,
        asked: VersionWord,
    ) -> Result<u32, Refusal>
        requires { table < length store.now.store.tables }
        ensures { result ≡ version_of self.now store.now.store (table_at store.now.store table) asked }
    {
        match asked {
            VersionWord::Latest => self.newest_version(),
            VersionWord::At(version) => {
                self.check_version(store.oldest(table), version)?;
                Ok(version)
            }
            VersionWord::Pin(_) => Ok(store.floor()),
        }
    }
}

// The columns of a relation.
fn schema_at(alloc: Global, store: &PlainStore, place: Place) -> Result<Schema, AllocError>
    requires { IsThere store.now.store place }
    ensures { IfOk result (λ s. s ≡ relation_columns (relation_seen store.now.store place)) }
{
    let evolving = store.evolving(place.table);
    match place.view {
        Some(view) => evolving.view_schema(view),
        None => evolving.present().copy(),
    }
}

// The page that is asked of a relation of these columns at a version, and its query.
fn answer_at(
    alloc: Global,
    store: &PlainStore,
    place: Place,
    schema: &Schema,
    version: u32,
    words: &QueryWords,
) -> Result<(Page, Query), Failure>
    requires there { IsThere store.now.store place }
    requires columns { schema.now ≡ relation_columns (relation_seen store.now.store place) }
    ensures built { IfOk result (λ found. IsBuiltOf schema.now version (epoch_of (relation_seen store.now.store place).table.lineage) words.now found.1) }
    ensures page { IfOk result (λ found. found.0 ≡ page_of found.1.version found.1.limit found.1.resume (answer_rows schema.now found.1.asked (relation_content (relation_seen store.now.store place) found.1.version))) }
    ensures spelled { IfOk result (λ found. AllByRecursion (λ (row : AnyRow). IsTrue (is_spelling (group_kinds found.1) row.key)) found.0.rows) }
    ensures refused { IfErr result (IsDue (refused_as query_refusal (query_of schema.now words.now.relation version (epoch_of (relation_seen store.now.store place).table.lineage) words.now))) }
{
    let epoch = store.evolving(place.table).epoch();
    let query = build_query(alloc, schema, version, epoch, words)?;
    let page = page(alloc, store, place, schema, &query)?;
    Ok((page, query))
}

// The page that a query asks for.
fn page(
    alloc: Global,
    store: &PlainStore,
    place: Place,
    schema: &Schema,
    query: &Query,
) -> Result<Page, AllocError>
    requires there { IsThere store.now.store place }
    requires columns { schema.now ≡ relation_columns (relation_seen store.now.store place) }
    requires asked { IsQueryOf schema.now query.now }
    ensures page { IfOk result (λ page. page ≡ page_of query.now.version query.now.limit query.now.resume (answer_rows schema.now query.now.asked (relation_content (relation_seen store.now.store place) query.now.version))) }
    ensures form { IfOk result (λ page. AreRowsOf (grouped_columns schema.now query.now.asked.columns query.now.asked.values) page.rows) }
    ensures spelled { IfOk result (λ page. AllByRecursion (λ (row : AnyRow). IsTrue (is_spelling (group_kinds query.now) row.key)) page.rows) }
{
    reads_back();
    let content = store.content(place.table, query.version());
    let Some(view) = place.view else {
        return answer(alloc, schema, query, content);
    };
    let rows = view_rows(alloc, store.evolving(place.table), view, content)?;
    answer(alloc, schema, query, rows.as_slice())
}
