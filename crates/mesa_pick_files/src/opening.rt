// Opening the files of a query.
ghost use Rattle.std.specs.Prelude.{◌≡◌, ◌≢◌, ◌<◌, ◌≤◌, ◌^◌, ℕ, IfErr, IfOk, IfSome, None, Some, length, map};
ghost use Rattle.std.specs.List.{AllByRecursion};
ghost use Rattle.mesa_delta.specs.declared.error.FileError.TheVariants as file_error;
ghost use Rattle.mesa_disk.specs.Story.{Unmoved};
ghost use Rattle.mesa_file.specs.declared.damage.Damage.{Damage as AnyDamage};
ghost use Rattle.mesa_validate.specs.mesa_store_spec.Fitting.{deltas_of};
ghost use Rattle.mesa_validate.specs.mesa_store_spec.Planned.{planned as planned_of};
ghost use Rattle.mesa_pick_files.specs.Read.{HaveFiles, IsPinnedFor, SomeUnsound, relation_read};
ghost use Rattle.mesa_pick_files.specs.Files.{want_in, want_of};
ghost use Rattle.mesa_pick_files.specs.Lent.{AreOfEpochs, lent_in};
ghost use Rattle.mesa_query.specs.mesa_group_blocks.Moved.{inputs_in};
ghost use Rattle.mesa_query.specs.Files.{owns_in};
ghost use Rattle.mesa_schema.specs.Changes.{epoch_of};
ghost use Rattle.mesa_catalog_table.specs.Meaning.{IsTable, meta_of};
ghost use Rattle.mesa_open_files.specs.Opening.{Counted, HasEpoch, HaveOpened, is_read_fault};

use crate::joining::join;
use crate::{Deltas, Sources, Viewed, own_columns, planned, table_files, view_files};
use mesa_catalog_table::Table;
use mesa_delta::FileError;
use mesa_disk::Made;
use mesa_open_files::{DeltaDisk, Opened, Pinned, PinnedInput, Unopened, open_all, retire_all};
use mesa_validate::Found;
use std::alloc::Global;

/// The files that answer a query of a table, or of a view of it, at its version, for a reply at a position: those of the plan are open. Where one isn't the recorded file, or can't be read, or memory is wanting, those that were opened are given back.
pub fn open_files<M: Made, D: DeltaDisk<M>>(
    alloc: Global,
    disk: &mut D,
    table: &Table,
    found: Found,
    at: u64,
) -> Result<Pinned<D::Reader>, FileError>
    requires table { (next : ℕ) × (next < 2 ^ 32) × IsTable next table.now × AllByRecursion (λ d. d.epoch ≤ epoch_of table.now.evolving.value) (deltas_of (meta_of next table.now)) }
    requires view { IfSome found.relation.view (λ view. view < length table.now.evolving.value.views) }
    ensures unmoved { Unmoved (D.story disk.old) (D.story disk.new) }
    ensures counted { Counted (D.story disk.old) (D.story disk.new) (is_read_fault result) }
    ensures at { IfOk result (λ p. p.at ≡ at) }
    ensures files { (next : ℕ) → IsTable next table.now → IfOk result (IsPinnedFor D.Reader.bytes D.Reader.faults (D.story disk.old).told (meta_of next table.now) found) }
    ensures damage { IfErr result (λ e. (d : AnyDamage) → e ≡ file_error.Damaged d → d.want ≢ d.found) }
    // A file that is damaged isn't the recorded one.
    ensures unsound { (next : ℕ) → IsTable next table.now → IfErr result (λ e. (d : AnyDamage) → e ≡ file_error.Damaged d → SomeUnsound (D.story disk.old).told (map want_in (relation_read (meta_of next table.now).lineage found.relation.view (planned_of (meta_of next table.now) found.query.version)))) }
{
    let deltas = planned(table, found.query.version());
    match open_relation(alloc, disk, table, found.relation.view, &deltas) {
        Ok(inputs) => {
            let Found { relation, query } = found;
            Ok(Pinned {
                version: query.version(),
                query,
                view: relation.view,
                at,
                inputs,
            })
        }
        Err(error) => Err(error),
    }
}

// The files of deltas by which a table is read, or the view of a number, open.
fn open_relation<'a, M: Made, D: DeltaDisk<M>>(
    alloc: Global,
    disk: &mut D,
    table: &'a Table,
    view: Option<u8>,
    deltas: &Deltas<'a>,
) -> Result<Vec<PinnedInput<D::Reader>>, FileError>
    requires epochs { AreOfEpochs (epoch_of table.now.evolving.value) (lent_in deltas.now) }
    requires view { IfSome view (λ view. view < length table.now.evolving.value.views) }
    ensures unmoved { Unmoved (D.story disk.old) (D.story disk.new) }
    ensures counted { Counted (D.story disk.old) (D.story disk.new) (is_read_fault result) }
    ensures files { IfOk result (λ files. HaveFiles D.Reader.bytes D.Reader.faults (D.story disk.old).told (relation_read table.now.evolving.value view (lent_in deltas.now)) files.items) }
    ensures damage { IfErr result (λ e. (d : AnyDamage) → e ≡ file_error.Damaged d → d.want ≢ d.found) }
    ensures unsound { IfErr result (λ e. (d : AnyDamage) → e ≡ file_error.Damaged d → SomeUnsound (D.story disk.old).told (map want_in (relation_read table.now.evolving.value view (lent_in deltas.now)))) }
{
    match view {
        Some(view) => open_view(alloc, disk, table, view, deltas),
        None => open_table(alloc, disk, table, deltas),
    }
}

// A table's own files of deltas, open.
fn open_table<'a, M: Made, D: DeltaDisk<M>>(
    alloc: Global,
    disk: &mut D,
    table: &'a Table,
    deltas: &Deltas<'a>,
) -> Result<Vec<PinnedInput<D::Reader>>, FileError>
    requires { AreOfEpochs (epoch_of table.now.evolving.value) (lent_in deltas.now) }
    ensures unmoved { Unmoved (D.story disk.old) (D.story disk.new) }
    ensures counted { Counted (D.story disk.old) (D.story disk.new) (is_read_fault result) }
    ensures files { IfOk result (λ files. HaveFiles D.Reader.bytes D.Reader.faults (D.story disk.old).told (relation_read table.now.evolving.value None (lent_in deltas.now)) files.items) }
    ensures damage { IfErr result (λ e. (d : AnyDamage) → e ≡ file_error.Damaged d → d.want ≢ d.found) }
    ensures unsound { IfErr result (λ e. (d : AnyDamage) → e ≡ file_error.Damaged d → SomeUnsound (D.story disk.old).told (map want_in (relation_read table.now.evolving.value None (lent_in deltas.now)))) }
{
    let Ok(wanted) = table_files(alloc, &table.evolving, deltas) else {
        return Err(FileError::Memory);
    };
    let Ok(own) = vec![in alloc; true; wanted.len()] else {
        return Err(FileError::Memory);
    };
    open_sources(alloc, disk, &Sources { wanted, own })
}

// The files of deltas by which a view of a table is read, open.
fn open_view<'a, M: Made, D: DeltaDisk<M>>(
    alloc: Global,
    disk: &mut D,
    table: &'a Table,
    view: u8,
    deltas: &Deltas<'a>,
) -> Result<Vec<PinnedInput<D::Reader>>, FileError>
    requires epochs { AreOfEpochs (epoch_of table.now.evolving.value) (lent_in deltas.now) }
    requires view { view < length table.now.evolving.value.views }
    ensures unmoved { Unmoved (D.story disk.old) (D.story disk.new) }
    ensures counted { Counted (D.story disk.old) (D.story disk.new) (is_read_fault result) }
    ensures files { IfOk result (λ files. HaveFiles D.Reader.bytes D.Reader.faults (D.story disk.old).told (relation_read table.now.evolving.value (Some view) (lent_in deltas.now)) files.items) }
    ensures damage { IfErr result (λ e. (d : AnyDamage) → e ≡ file_error.Damaged d → d.want ≢ d.found) }
    ensures unsound { IfErr result (λ e. (d : AnyDamage) → e ≡ file_error.Damaged d → SomeUnsound (D.story disk.old).told (map want_in (relation_read table.now.evolving.value (Some view) (lent_in deltas.now)))) }
{
    let Ok(columns) = own_columns(alloc, &table.evolving, view) else {
        return Err(FileError::Memory);
    };
    let viewed = Viewed {
        table: &table.evolving,
        own: &columns,
        view,
    };
    match view_files(alloc, &viewed, deltas) {
        Ok(sources) => open_sources(alloc, disk, &sources),
        Err(_) => Err(FileError::Memory),
    }
}

// Files that are wanted, open, each with whether it is the relation's own.
fn open_sources<M: Made, D: DeltaDisk<M>>(
    alloc: Global,
    disk: &mut D,
    sources: &Sources,
) -> Result<Vec<PinnedInput<D::Reader>>, FileError>
    requires epochs { AllByRecursion HasEpoch sources.now.wanted.items }
    requires same { length sources.now.wanted.items ≡ length sources.now.own.items }
    ensures unmoved { Unmoved (D.story disk.old) (D.story disk.new) }
    ensures counted { Counted (D.story disk.old) (D.story disk.new) (is_read_fault result) }
    ensures own { IfOk result (λ files. owns_in files.items ≡ sources.now.own.items) }
    ensures opened { IfOk result (λ files. HaveOpened D.Reader.bytes D.Reader.faults (D.story disk.old).told sources.now.wanted.items (inputs_in files.items) None) }
    ensures damage { IfErr result (λ e. (d : AnyDamage) → e ≡ file_error.Damaged d → d.want ≢ d.found) }
    ensures unsound { IfErr result (λ e. (d : AnyDamage) → e ≡ file_error.Damaged d → SomeUnsound (D.story disk.old).told (map want_of sources.now.wanted.items)) }
{
    let Ok(mut files) = Vec::with_capacity(alloc, sources.own.len()) else {
        return Err(FileError::Memory);
    };
    match open_all(alloc, disk, &sources.wanted) {
        Ok(Opened { inputs, damage }) => match damage {
            Some(damage) => {
                files.destroy_empty();
                retire_all(disk, inputs);
                Err(FileError::Damaged(damage))
            }
            None => {
                join(&mut files, inputs, &sources.own);
                Ok(files)
            }
        },
        Err(Unopened::Fault) => {
            files.destroy_empty();
            Err(FileError::Read)
        }
        Err(Unopened::Memory) => {
            files.destroy_empty();
            Err(FileError::Memory)
        }
    }
}
