// The whole of a relation at the newest version.
ghost use Rattle.std.specs.Prelude.{◌≡◌, ◌≢◌, ◌<◌, ℕ, List, [], length, Err, Some, IfErr, IfOk, IfSome};
ghost use Rattle.std.specs.List.{AllByRecursion};
ghost use Rattle.mesa_delta.specs.declared.error.FileError.TheVariants as file_error;
ghost use Rattle.mesa_disk.specs.Story.{Unmoved};
ghost use Rattle.mesa_filter.specs.Query.{IsQueryOf};
ghost use Rattle.mesa_store_spec.specs.Catalog.{meta_at};
ghost use Rattle.mesa_query.specs.mesa_scan.Cursors.{reader_in};
ghost use Rattle.mesa_pick_files.specs.mesa_catalog_records.Names.{relation_of};
ghost use Rattle.mesa_open_files.specs.GivingBack.{pinned_inputs};
ghost use Rattle.mesa_validate.specs.Found.{columns_at};
ghost use Rattle.mesa_store_digest.specs.Latest.{HasLookReason, IsLatest, all_asked};
ghost use Rattle.mesa_recover.specs.Opened.{IsOpened};

use crate::LookError;
use mesa_catalog::{Catalog, Relation};
use mesa_disk::Made;
use mesa_filter::{Query, QueryError, QueryWords, VersionWord};
use mesa_list::Items;
use mesa_open_files::{DeltaDisk, Pinned};
use mesa_pick_files::open_files;
use mesa_recover::Opened;
use mesa_store_spec::catalogs_are_shaped;
use mesa_validate::{Found, relation_asked, relation_schema};
use std::alloc::{AllocError, Global};

/// Opens the files of the relation of a name, a table or a view, for a query of all its rows at the newest version.
/// Where one isn't the recorded file, or can't be read, or memory is wanting, those that were opened are given back.
/// Nothing of the store is changed.
pub fn pin_latest<M: Made, D: DeltaDisk<M>>(
    alloc: Global,
    opened: &mut Opened<D>,
    relation: &[u8],
) -> Result<Pinned<D::Reader>, LookError>
    requires { IsOpened (D.story opened.old.disk) opened.old }
    ensures latest { IfOk result (IsLatest D.Reader.bytes (D.story opened.old.disk) opened.old.catalog.catalogue relation.now) }
    ensures reason { IfErr result (HasLookReason (D.story opened.old.disk) (D.story opened.new.disk) opened.old.catalog.catalogue relation.now) }
    ensures same { opened.new ≡ record opened.old { disk = opened.new.disk } }
    ensures unmoved { Unmoved (D.story opened.old.disk) (D.story opened.new.disk) }
    // No count rose but for a fault, and the readers have met none.
    ensures quiet { (result ≡ Err (LookError.File file_error.Read) → ⊥) → ((D.story opened.new.disk).faults ≡ (D.story opened.old.disk).faults) × ((D.story opened.new.disk).read_faults ≡ (D.story opened.old.disk).read_faults) }
    ensures fresh { IfOk result (λ p. AllByRecursion (λ i. D.Reader.faults (reader_in i) ≡ 0) (pinned_inputs p)) }
{
    match relation_asked(&opened.catalog, relation) {
        Some(place) => pin_place(alloc, opened, place),
        None => Err(LookError::NoTable),
    }
}

// The same of the relation at a place, whatever its name is.
pub(crate) fn pin_place<M: Made, D: DeltaDisk<M>>(
    alloc: Global,
    opened: &mut Opened<D>,
    place: Relation,
) -> Result<Pinned<D::Reader>, LookError>
    requires opened { IsOpened (D.story opened.old.disk) opened.old }
    requires named { (name : List ℕ) × (relation_of opened.old.catalog.catalogue name ≡ Some place) }
    ensures latest { IfOk result (λ p. (name : List ℕ) → relation_of opened.old.catalog.catalogue name ≡ Some place → IsLatest D.Reader.bytes (D.story opened.old.disk) opened.old.catalog.catalogue name p) }
    ensures reason { IfErr result (λ e. (name : List ℕ) → relation_of opened.old.catalog.catalogue name ≡ Some place → HasLookReason (D.story opened.old.disk) (D.story opened.new.disk) opened.old.catalog.catalogue name e) }
    ensures same { opened.new ≡ record opened.old { disk = opened.new.disk } }
    ensures unmoved { Unmoved (D.story opened.old.disk) (D.story opened.new.disk) }
    ensures quiet { (result ≡ Err (LookError.File file_error.Read) → ⊥) → ((D.story opened.new.disk).faults ≡ (D.story opened.old.disk).faults) × ((D.story opened.new.disk).read_faults ≡ (D.story opened.old.disk).read_faults) }
    ensures fresh { IfOk result (λ p. AllByRecursion (λ i. D.Reader.faults (reader_in i) ≡ 0) (pinned_inputs p)) }
{
    catalogs_are_shaped();
    let catalog = &opened.catalog;
    let Some(version) = catalog.newest() else {
        return Err(LookError::NoVersion);
    };
    let Ok(found) = query_of_all(alloc, catalog, place, version) else {
        return Err(LookError::Memory);
    };
    let table = catalog.table(place.table);
    match open_files(alloc, &mut opened.disk, table, found, 0) {
        Ok(pinned) => Ok(pinned),
        Err(error) => Err(LookError::from(error)),
    }
}

// The query of all rows of a relation at a version.
fn query_of_all(
    alloc: Global,
    catalog: &Catalog,
    place: Relation,
    version: u32,
) -> Result<Found, AllocError>
    requires table { place.table < length catalog.now.catalogue.tables }
    requires view { IfSome place.view (λ view. view < length (meta_at catalog.now.catalogue place.table).lineage.views) }
    ensures relation { IfOk result (λ f. f.relation ≡ place) }
    ensures version { IfOk result (λ f. f.query.version ≡ version) }
    ensures asked { IfOk result (λ f. f.query.asked ≡ all_asked (columns_at catalog.now.catalogue place)) }
    ensures sound { IfOk result (λ f. IsQueryOf (columns_at catalog.now.catalogue place) f.query) }
{
    let schema = relation_schema(catalog, place)?;
    let epoch = catalog.evolving(place.table).epoch();
    let name = catalog.name(place.table);
    let words = all_words(alloc);
    match Query::build(alloc, &schema, name, version, epoch, &words) {
        Ok(query) => Ok(Found {
            relation: place,
            query,
        }),
        Err(error) => {
            wants_memory(&error);
            Err(AllocError)
        }
    }
}

// All columns may be asked, without a filter and from the first row on: nothing but want of memory keeps such a query back.
fn wants_memory(_error: &QueryError)
    requires { _error.now ≢ QueryError.Memory → ⊥ }
{}

// The words that ask for all columns of all rows. Takes no memory.
fn all_words(alloc: Global) -> QueryWords
    ensures { result ≡ record { relation = []; version = VersionWord.Latest; filter = []; group = []; values = []; limit = u32.MAX; resume = [] } }
{
    QueryWords {
        relation: Items::new(alloc),
        version: VersionWord::Latest,
        filter: Items::new(alloc),
        group: Items::new(alloc),
        values: Items::new(alloc),
        limit: u32::MAX,
        resume: Items::new(alloc),
    }
}
