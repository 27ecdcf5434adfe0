// The files of a session's query.
ghost use Rattle.std.specs.Prelude.{◌≡◌, ◌≢◌, ◌<◌, true, IfErr, IfOk, IfSome, IsTrue, Some, length, map};
ghost use Rattle.mesa_read_turns.specs.Closing.{cause_of};
ghost use Rattle.mesa_read_turns.specs.Opening.{HasItsFiles, HasUnsoundFile, is_unread, read_in, tells_damage};
ghost use Rattle.mesa_read_turns.specs.Seeing.{catalogue_asked};
ghost use Rattle.mesa_delta.specs.declared.error.FileError.TheVariants as file_error;
ghost use Rattle.mesa_disk.specs.Story.{Unmoved};
ghost use Rattle.mesa_file.specs.declared.damage.Damage.{Damage as AnyDamage};
ghost use Rattle.mesa_engine.specs.mesa_store_spec.Catalog.{Catalog as AnyCatalog, meta_at};
ghost use Rattle.mesa_filter.specs.Filter.{are_within};
ghost use Rattle.mesa_filter.specs.Query.{IsQueryOf, group_kinds};
ghost use Rattle.mesa_engine.specs.mesa_store_spec.Planned.{planned as planned_of};
ghost use Rattle.mesa_pick_files.specs.Read.{IsPinnedFor, SomeUnsound, relation_read};
ghost use Rattle.mesa_pick_files.specs.Files.{want_in};
ghost use Rattle.mesa_validate.specs.Found.{columns_at};
ghost use Rattle.mesa_engine.specs.mesa_store_spec.Shape.{IsCatalog};
ghost use Rattle.mesa_engine.specs.EngineState.{books_of};
ghost use Rattle.mesa_engine.specs.Failure.{cause_in};
ghost use Rattle.mesa_columns.specs.Columns.{Columns};
ghost use Rattle.mesa_engine.specs.mesa_history_spec.Rows.{no_rows};
ghost use Rattle.mesa_open_files.specs.Opening.{Counted, is_read_fault};
ghost use Rattle.mesa_open_files.specs.Pins.{IsPinned};
ghost use Rattle.mesa_engine.specs.mesa_invariant_spec.Queries.{HasNoAnswer, IsUnanswered};

use crate::closing_query::failed;
use crate::{Asked, ask, can_be_told};
use mesa_delta::FileError;
use mesa_disk::Made;
use mesa_engine::{Catalog, Failure, Metadata};
use mesa_filter::QueryWords;
use mesa_open_files::{DeltaDisk, Pinned};
use mesa_pick_files::open_files;
use mesa_validate::{Found, ordered};
use std::alloc::{AllocError, Global};

// The files that answer a session's query, for a reply at a position, or why it isn't answered.
pub(crate) fn files_asked<M: Made, D: DeltaDisk<M>>(
    alloc: Global,
    disk: &mut D,
    metadata: &Metadata,
    session: u16,
    words: &QueryWords,
    at: u64,
) -> Result<Pinned<D::Reader>, Failure>
    requires { (c : AnyCatalog) → catalogue_asked metadata.now.state session words.now.version ≡ Some c → IsCatalog c }
    ensures unmoved { Unmoved (D.story disk.old) (D.story disk.new) }
    ensures counted { Counted (D.story disk.old) (D.story disk.new) (is_unread result) }
    ensures at { IfOk result (λ p. p.at ≡ at) }
    ensures pinned { IfOk result (λ p. (s : Columns) × IsPinned D.Reader.bytes s p) }
    ensures files { IfOk result (HasItsFiles D.Reader.bytes D.Reader.faults (D.story disk.old).told metadata.now.state session words.now) }
    ensures refused { IfErr result (λ failure. HasNoAnswer (books_of no_rows metadata.now.state) session words.now (cause_in failure)) }
    ensures unsound { IfErr result (λ failure. tells_damage failure ≡ true → HasUnsoundFile (D.story disk.old).told metadata.now.state session words.now) }
{
    let Asked { catalog, found } = ask(alloc, metadata, session, words)?;
    match open_found(alloc, disk, catalog, found, at) {
        Ok(pinned) => Ok(pinned),
        Err(error) => {
            opening_told(&error);
            Err(failed(error))
        }
    }
}

// The files of what a query finds in a catalogue, by the order that is chosen for it.
fn open_found<M: Made, D: DeltaDisk<M>>(
    alloc: Global,
    disk: &mut D,
    catalog: &Catalog,
    found: Found,
    at: u64,
) -> Result<Pinned<D::Reader>, FileError>
    requires shaped { IsCatalog catalog.now.catalogue }
    requires there { found.relation.table < length catalog.now.catalogue.tables }
    requires view { IfSome found.relation.view (λ view. view < length (meta_at catalog.now.catalogue found.relation.table).lineage.views) }
    requires sound { IsQueryOf (columns_at catalog.now.catalogue found.relation) found.query }
    ensures unmoved { Unmoved (D.story disk.old) (D.story disk.new) }
    ensures counted { Counted (D.story disk.old) (D.story disk.new) (is_read_fault result) }
    ensures at { IfOk result (λ p. p.at ≡ at) }
    ensures pinned { IfOk result (λ p. (s : Columns) × IsPinned D.Reader.bytes s p) }
    ensures within { IsTrue (are_within found.query.kinds found.query.asked.terms) }
    ensures kinds { group_kinds (read_in catalog.now.catalogue found).query ≡ group_kinds found.query }
    ensures files { IfOk result (IsPinnedFor D.Reader.bytes D.Reader.faults (D.story disk.old).told (meta_at catalog.now.catalogue found.relation.table) (read_in catalog.now.catalogue found)) }
    ensures damage { IfErr result (λ e. (d : AnyDamage) → e ≡ file_error.Damaged d → d.want ≢ d.found) }
    ensures unsound { IfErr result (λ e. (d : AnyDamage) → e ≡ file_error.Damaged d
        → SomeUnsound (D.story disk.old).told (map want_in (relation_read (meta_at catalog.now.catalogue found.relation.table).lineage (read_in catalog.now.catalogue found).relation.view (planned_of (meta_at catalog.now.catalogue found.relation.table) (read_in catalog.now.catalogue found).query.version)))) }
{
    match ordered(catalog, found) {
        Ok(found) => {
            let table = catalog.table(found.relation.table);
            open_files(alloc, disk, table, found, at)
        }
        Err(AllocError) => Err(FileError::Memory),
    }
}

// Why files aren't open can be told.
fn opening_told(error: &FileError)
    requires { (d : AnyDamage) → error.now ≡ file_error.Damaged d → d.want ≢ d.found }
    ensures { IsUnanswered (cause_of error.now) }
{
    if let FileError::Damaged(damage) = error {
        can_be_told(*damage);
    }
}
