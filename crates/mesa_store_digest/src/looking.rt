// The digests of a relation at the newest version.
ghost use Rattle.std.specs.Prelude.{◌≡◌, ◌<◌, List, Err, IfErr, IfOk, IfSome, length};
ghost use Rattle.mesa_delta.specs.declared.error.FileError.TheVariants as file_error;
ghost use Rattle.mesa_disk.specs.Story.{Unmoved};
ghost use Rattle.mesa_open_files.specs.mesa_file.declared.damage.Damage.{Damage as AnyDamage};
ghost use Rattle.mesa_store_spec.specs.Catalog.{meta_at};
ghost use Rattle.mesa_pick_files.specs.mesa_merge.Faults.{HaveFaultCause, faults_of};
ghost use Rattle.mesa_pick_files.specs.Told.{TellContent};
ghost use Rattle.mesa_query.specs.mesa_group_blocks.Moved.{inputs_in};
ghost use Rattle.mesa_recover.specs.Opened.{IsOpened};
ghost use Rattle.mesa_validate.specs.Found.{columns_at};
ghost use Rattle.mesa_pick_files.specs.mesa_columns.declared.rows.Row.{Row as AnyRow};
ghost use Rattle.mesa_open_files.specs.Errors.{Differs};
ghost use Rattle.mesa_open_files.specs.Pins.{IsPinned};
ghost use Rattle.mesa_store_digest.specs.Latest.{HasLookReason, all_asked};
ghost use Rattle.mesa_store_digest.specs.Looked.{AreDigests, IsDigestOf};

use crate::LookError;
use crate::latest::pin_place;
use mesa_catalog::{Catalog, Relation};
use mesa_delta::FileError;
use mesa_digest::{DigestPair, digests};
use mesa_disk::{FileReader, Made};
use mesa_open_files::{DeltaDisk, Pinned, retire_pinned};
use mesa_query::whole;
use mesa_recover::Opened;
use mesa_validate::{relation_asked, relation_schema};
use std::alloc::Global;

/// The newest version, and the digests of the rows that the relation of a name has then. Nothing of the store is
/// changed, and each reader is given back.
pub fn look<M: Made, D: DeltaDisk<M>>(
    alloc: Global,
    opened: &mut Opened<D>,
    name: &[u8],
) -> Result<(u32, DigestPair), LookError>
    requires { IsOpened (D.story opened.old.disk) opened.old }
    ensures looked { IfOk result (λ r. IsDigestOf (D.story opened.old.disk) opened.old.catalog.catalogue name.now r.0 r.1.rows r.1.ordered r.1.set) }
    ensures reason { IfErr result (HasLookReason (D.story opened.old.disk) (D.story opened.new.disk) opened.old.catalog.catalogue name.now) }
    ensures same { opened.new ≡ record opened.old { disk = opened.new.disk } }
    ensures unmoved { Unmoved (D.story opened.old.disk) (D.story opened.new.disk) }
    ensures quiet { (result ≡ Err (LookError.File file_error.Read) → ⊥) → ((D.story opened.new.disk).faults ≡ (D.story opened.old.disk).faults) × ((D.story opened.new.disk).read_faults ≡ (D.story opened.old.disk).read_faults) }
{
    let Some(place) = relation_asked(&opened.catalog, name) else {
        return Err(LookError::NoTable);
    };
    let mut pinned = pin_place(alloc, opened, place)?;
    let looked = digests_of(alloc, &opened.catalog, place, &mut pinned);
    let version = pinned.version;
    retire_pinned(&mut opened.disk, pinned);
    match looked {
        Ok(pair) => Ok((version, pair)),
        Err(error) => Err(LookError::from(error)),
    }
}

// The digests of the rows of a pinned query of all columns of a relation.
fn digests_of<R: FileReader>(
    alloc: Global,
    catalog: &Catalog,
    place: Relation,
    pinned: &mut Pinned<R>,
) -> Result<DigestPair, FileError>
    requires table { place.table < length catalog.now.catalogue.tables }
    requires view { IfSome place.view (λ view. view < length (meta_at catalog.now.catalogue place.table).lineage.views) }
    requires pinned { IsPinned R.bytes (columns_at catalog.now.catalogue place) pinned.old }
    requires asked { pinned.old.query.asked ≡ all_asked (columns_at catalog.now.catalogue place) }
    ensures digests { IfOk result (AreDigests R.bytes (columns_at catalog.now.catalogue place) pinned.old) }
    ensures version { pinned.new.version ≡ pinned.old.version }
    ensures cause { HaveFaultCause (λ e. e ≡ file_error.Read) (faults_of R.faults (inputs_in pinned.old.inputs.items)) (faults_of R.faults (inputs_in pinned.new.inputs.items)) result }
    ensures damaged { IfErr result (λ e. (d : AnyDamage) → e ≡ file_error.Damaged d → Differs d) }
    ensures never { IfErr result (λ e. (d : AnyDamage) → e ≡ file_error.Damaged d → (told : List AnyRow) → TellContent R.bytes (columns_at catalog.now.catalogue place) pinned.old told → ⊥) }
{
    let schema = relation_schema(catalog, place)?;
    let rows = whole(alloc, pinned)?;
    Ok(digests(alloc, &rows, &schema)?)
}
