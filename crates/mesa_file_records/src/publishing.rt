// The record of a load.
ghost use Rattle.std.specs.Prelude.{◌≡◌, ◌+◌, ◌<◌, ◌≤◌, ◌^◌, ℕ, List, Ok, IfErr, IfOk, OnOk};
ghost use Rattle.mesa_batch.specs.Batch.{Placed as PlacedRow, batch_of};
ghost use Rattle.mesa_batch.specs.declared.words.RowWords.{RowWords as AnyWords};
ghost use Rattle.mesa_model.specs.Load.{load_batch};
ghost use Rattle.mesa_model.specs.Warehouse.{max_versions};
ghost use Rattle.mesa_model.specs.declared.replies.Refusal.TheVariants as no;
ghost use Rattle.mesa_file_records.specs.declared.failure.Unpublished.TheVariants.{Refused};
ghost use Rattle.mesa_engine.specs.mesa_commit.Holding.{Among};
ghost use Rattle.mesa_engine.specs.mesa_store_spec.Shape.{IsCatalog};
ghost use Rattle.mesa_engine.specs.mesa_store_spec.Ids.{named};
ghost use Rattle.mesa_engine.specs.mesa_store_spec.Sourced.{tables_read};
ghost use Rattle.mesa_catalog.specs.Lookups.{sight_of};
ghost use Rattle.mesa_open_files.specs.Batches.{IsPrepared};
ghost use Rattle.mesa_engine.specs.EngineState.{most_files, next_id};
ghost use Rattle.mesa_file_records.specs.Bounds.{IsDue};
ghost use Rattle.mesa_file_records.specs.Published.{IsLoaded, IsPublished, bare_of};

use crate::Unpublished;
use crate::adopting::Adopting;
use crate::bounds::check_bounds;
use mesa_catalog::Catalog;
use mesa_disk::{Adoption, Made};
use mesa_engine::Metadata;
use mesa_file::FileId;
use mesa_model::Refusal;
use mesa_open_files::Prepared;
use mesa_record::Record;
use std::alloc::Global;

// How many versions there may be.
const MAX_VERSIONS: u32 = 0xffff_ffff;

/// A batch that may be published: the version that it becomes, the record that does it, the files that it brings with their ids, and how many files the run has adopted with them.
#[derive(Drop)]
pub struct Published<M: Drop> {
    pub version: u32,
    pub entry: Record,
    pub made: Vec<Adoption<M>>,
    pub adopted: u64,
}

/// The record that publishes a batch, which was prepared for the catalogue's tables, as the next version. The files get the next ids. Where the batch isn't published they are dropped.
pub fn publish<M: Made>(
    alloc: Global,
    metadata: &Metadata,
    prepared: Prepared<M>,
) -> Result<Published<M>, Unpublished>
    requires shaped { IsCatalog metadata.now.state.catalogue }
    requires prepared { (batch : List PlacedRow) × IsPrepared M.bytes M.id_of (sight_of metadata.now.state.catalogue) batch prepared }
    requires given { (id : ℕ) → Among id (named metadata.now.state.catalogue) → id < next_id metadata.now.state }
    requires room { metadata.now.state.adopted + most_files < 2 ^ 40 }
    ensures published { IfOk result (λ p. (words : List AnyWords) (batch : List PlacedRow) → batch_of (tables_read metadata.now.state.catalogue) words ≡ Ok batch → IsPrepared M.bytes M.id_of (sight_of metadata.now.state.catalogue) batch prepared
        → IsPublished M.bytes metadata.now.state batch p) }
    ensures version { IfOk result (λ p. p.version ≡ metadata.now.state.catalogue.next) }
    ensures loaded { OnOk result ((words : List AnyWords) (batch : List PlacedRow) → batch_of (tables_read metadata.now.state.catalogue) words ≡ Ok batch → IsPrepared M.bytes M.id_of (sight_of metadata.now.state.catalogue) batch prepared
        → IsLoaded metadata.now.state words batch) }
    ensures refused { IfErr result (λ e. (words : List AnyWords) (batch : List PlacedRow) → metadata.now.state.closed ≡ None → batch_of (tables_read metadata.now.state.catalogue) words ≡ Ok batch → IsPrepared M.bytes M.id_of (sight_of metadata.now.state.catalogue) batch prepared
        → IsDue (load_batch (bare_of metadata.now.state) words) e) }
{
    let catalog = metadata.catalog();
    let version = next_version(catalog)?;
    check_bounds(catalog, &prepared.parts)?;
    let adopted = metadata.adopted();
    let mut adopting = Adopting {
        alloc,
        made: Vec::new(alloc),
        next: FileId::adopted(catalog.run(), adopted).number(),
    };
    let parts = adopting.parts(catalog, prepared.parts)?;
    let adopted = adopted + adopting.made.len() as u64;
    Ok(Published {
        version,
        entry: Record::Publish { version, parts },
        made: adopting.made,
        adopted,
    })
}

// The number of the next version, if there may be one more.
fn next_version(catalog: &Catalog) -> Result<u32, Unpublished>
    requires { catalog.now.catalogue.next ≤ max_versions }
    ensures next { IfOk result (λ version. (version ≡ catalog.now.catalogue.next) × (version < max_versions)) }
    ensures full { IfErr result (λ e. (catalog.now.catalogue.next ≡ max_versions) × (e ≡ Refused (no.VersionsFull max_versions))) }
{
    let version = match catalog.newest() {
        None => 0,
        Some(newest) => newest + 1,
    };
    if version >= MAX_VERSIONS {
        let limit = MAX_VERSIONS;
        return Err(Unpublished::Refused(Refusal::VersionsFull { limit }));
    }
    Ok(version)
}
