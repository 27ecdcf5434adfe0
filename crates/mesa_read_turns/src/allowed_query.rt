// What a query asks of a vault.
ghost use Rattle.std.specs.Prelude.{◌≡◌, None, Ok, Some, IfErr, IfOk};
ghost use Rattle.mesa_engine.specs.mesa_binding.Told.{IsDue};
ghost use Rattle.mesa_engine.specs.mesa_binding.declared.failure.Failure.TheVariants.{Memory as WantOfMemory};
ghost use Rattle.mesa_read_turns.specs.Seeing.{catalogue_asked, pinned_asked};
ghost use Rattle.mesa_pick_files.specs.mesa_catalog_records.Names.{relation_of};
ghost use Rattle.mesa_filter.specs.Query.{IsQueryOf};
ghost use Rattle.mesa_engine.specs.EngineState.{books_of};
ghost use Rattle.mesa_model.specs.Query.{query_answer};
ghost use Rattle.mesa_validate.specs.Found.{IsAnswered, Sees, columns_at, version_in};
ghost use Rattle.mesa_engine.specs.mesa_history_spec.Rows.{Rows};

use crate::{Seen, seen_by};
use mesa_engine::binding::Failure;
use mesa_engine::{Catalog, Metadata};
use mesa_filter::QueryWords;
use mesa_validate::Found;
use std::alloc::Global;

/// A query that the rules allow: the tables that it sees, and what it asks of them.
pub struct Asked<'a> {
    pub catalog: &'a Catalog,
    pub found: Found,
}

/// What a session's query asks of the tables that it sees, or why it isn't answered.
pub fn ask<'a>(
    alloc: Global,
    metadata: &'a Metadata,
    session: u16,
    words: &QueryWords,
) -> Result<Asked<'a>, Failure>
    ensures sees { IfOk result (λ a. (rows : Rows) → Sees a.catalog.now.catalogue (pinned_asked metadata.now.state session words.now.version) words.now session (books_of rows metadata.now.state).bare) }
    ensures catalogue { IfOk result (λ a. catalogue_asked metadata.now.state session words.now.version ≡ Some a.catalog.now.catalogue) }
    ensures relation { IfOk result (λ a. relation_of a.catalog.now.catalogue words.now.relation ≡ Some a.found.relation) }
    ensures version { IfOk result (λ a. version_in a.catalog.now.catalogue (pinned_asked metadata.now.state session words.now.version) words.now.version a.found.relation.table ≡ Ok a.found.query.version) }
    ensures sound { IfOk result (λ a. IsQueryOf (columns_at a.catalog.now.catalogue a.found.relation) a.found.query) }
    ensures answered { IfOk result (λ a. IsAnswered a.catalog.now.catalogue (pinned_asked metadata.now.state session words.now.version) words.now a.found) }
    ensures refused { IfErr result (λ failure. (rows : Rows) → IsDue (query_answer (books_of rows metadata.now.state).bare session words.now) failure) }
    ensures opened { IfErr result (λ failure. failure ≡ WantOfMemory → metadata.now.state.closed ≡ None) }
{
    let Seen { catalog, pinned } = seen_by(metadata, session, words.version)?;
    let found = mesa_validate::query(alloc, catalog, pinned, words)?;
    Ok(Asked { catalog, found })
}
