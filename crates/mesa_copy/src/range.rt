// A range of a recast, rewritten.
ghost use Rattle.std.specs.Prelude.{◌≡◌, ◌<◌, ℕ, List, [], ◌∷◌, IfErr, IfOk, None};
ghost use Rattle.std.specs.List.{AllByRecursion};
ghost use Rattle.mesa_file.specs.declared.damage.Damage.{Damage as AnyDamage};
ghost use Rattle.mesa_compact.specs.mesa_columns.declared.rows.Row.{Row as AnyRow};
ghost use Rattle.mesa_schema.specs.Changes.{columns_of};
ghost use Rattle.mesa_schema.specs.Recasts.{Recast as Asked, recast_columns, recast_rows};
ghost use Rattle.mesa_batch.specs.Totals.{abs_totals, sum_bound};
ghost use Rattle.mesa_compact.specs.mesa_scan.Cursors.{IsInput};
ghost use Rattle.mesa_delta.specs.declared.error.FileError.TheVariants as file_error;
ghost use Rattle.mesa_compact.specs.mesa_merge.Faults.{faults_of};
ghost use Rattle.mesa_compact.specs.mesa_merge.Inputs.{known_of, knowns_of};
ghost use Rattle.mesa_open_files.specs.Inputs.{AreInputsTo, IsMergeOf, lineage_of};
ghost use Rattle.mesa_open_files.specs.Made.{IsMadeFile};
ghost use Rattle.mesa_open_files.specs.Recasts.{IsRangeRewritten, own, recast_content, recast_ids};
ghost use Rattle.mesa_file.specs.Serials.{AreNext, after_drafts};
ghost use Rattle.mesa_open_files.specs.declared.merging.CompactError.TheVariants as compact;
ghost use Rattle.mesa_compact.specs.Bounded.{AreBounded};
ghost use Rattle.mesa_compact.specs.Regrouped.{IsRegroupDamage};
ghost use Rattle.mesa_compact.specs.Writing.{HasCauses, damaged_by};
ghost use Rattle.mesa_copy.specs.Copying.{known_range};
ghost use Rattle.mesa_copy.specs.Renewals.{IsRenewal, columns_in};

use crate::renewal::Renewal;
use mesa_batch::row_totals;
use mesa_compact::regroup_range;
use mesa_delta::{FileError, Input};
use mesa_disk::{Bench, FileReader, Made};
use mesa_file::{FileId, Serials};
use mesa_open_files::{CompactError, MadeFile, RecastRange, RecastedRange};
use mesa_schema::Totals;
use std::alloc::Global;
use std::mem;

/// Rewrites a range. Without an input it has no rows, so it gets no file. The input is there still, whatever becomes of the file.
pub fn rewrite_range<M: Made, B: Bench<M>, R: FileReader>(
    alloc: Global,
    bench: &mut B,
    ids: &mut Serials,
    renewal: &Renewal,
    range: &mut RecastRange<R>,
) -> Result<RecastedRange<M>, CompactError>
    requires renewal { (r : Asked) × IsRenewal r renewal.now }
    requires range { AreInputsTo R.bytes (columns_in renewal.now) (own range.old) }
    ensures rewritten { IfOk result (λ made. (r : Asked) → IsRenewal r renewal.now → IsRangeRewritten M.bytes M.id_of R.bytes (columns_in renewal.now) r range.old made) }
    ensures numbered { IfOk result (λ made. AreNext ids.old ids.new (recast_ids M.id_of (made ∷ []))) }
    ensures ids { (n : ℕ) × (ids.new ≡ after_drafts n ids.old) }
    ensures known { known_range R.bytes range.new ≡ known_range R.bytes range.old }
    ensures kept { AreInputsTo R.bytes (columns_in renewal.now) (own range.new) }
    ensures causes { HasCauses (B.faults bench.old) (B.faults bench.new) (faults_of R.faults (own range.old)) (faults_of R.faults (own range.new)) (IsRegroupDamage R.bytes R.size (columns_in renewal.now) renewal.now.columns.items renewal.now.values.items (own range.new)) result }
    ensures accepts { IfErr result (λ e. (d : AnyDamage) → e ≡ damaged_by d → AreBounded (columns_in renewal.now) (knowns_of R.bytes (own range.old)) → ⊥) }
{
    let (from, to) = (range.from, range.to);
    let Some(input) = range.input.take() else {
        return rewrite_none(alloc, renewal, from, to);
    };
    let id = ids.draw();
    let (input, made) = rewrite_input(alloc, bench, id, renewal, input);
    let lent = mem::replace(&mut range.input, Some(input));
    let None = lent else { unreachable!() };
    match made {
        Ok((file, totals)) => Ok(RecastedRange {
            from,
            to,
            file: Some(file),
            totals,
        }),
        Err(error) => Err(error),
    }
}

// What a range without rows is rewritten to.
fn rewrite_none<M: Made>(
    alloc: Global,
    renewal: &Renewal,
    from: u32,
    to: u32,
) -> Result<RecastedRange<M>, CompactError>
    ensures versions { IfOk result (λ made. (made.from ≡ from) × (made.to ≡ to)) }
    ensures file { IfOk result (λ made. made.file ≡ None) }
    ensures totals { IfOk result (λ made. (r : Asked) → IsRenewal r renewal.now → made.totals ≡ abs_totals (recast_columns (columns_in renewal.now) r) []) }
    ensures small { IfOk result (λ made. AllByRecursion (λ n. n < sum_bound) made.totals) }
    ensures memory { IfErr result (λ e. e ≡ compact.File file_error.Memory) }
{
    match row_totals(alloc, renewal.renewed.present(), &[]) {
        Ok(totals) => Ok(RecastedRange {
            from,
            to,
            file: None,
            totals,
        }),
        Err(_) => Err(CompactError::File(FileError::Memory)),
    }
}

// The file of an input's rows, grouped, with their totals; and the input again.
fn rewrite_input<M: Made, B: Bench<M>, R: FileReader>(
    alloc: Global,
    bench: &mut B,
    id: FileId,
    renewal: &Renewal,
    input: Input<R>,
) -> (Input<R>, Result<(MadeFile<M>, Totals), CompactError>)
    requires renewal { (r : Asked) × IsRenewal r renewal.now }
    requires input { IsInput R.bytes input }
    requires table { columns_of (lineage_of input) ≡ columns_in renewal.now }
    ensures known { known_of R.bytes result.0 ≡ known_of R.bytes input }
    ensures kept { IsInput R.bytes result.0 }
    ensures made { IfOk result.1 (λ made. (r : Asked) → IsRenewal r renewal.now → (rows : List AnyRow) × IsMergeOf R.bytes (columns_in renewal.now) (input ∷ []) rows × IsMadeFile M.bytes M.id_of (recast_content (columns_in renewal.now) r rows) made.0
        × (made.1 ≡ abs_totals (recast_columns (columns_in renewal.now) r) (recast_rows (columns_in renewal.now) r rows))) }
    ensures small { IfOk result.1 (λ made. AllByRecursion (λ n. n < sum_bound) made.1) }
    ensures id { IfOk result.1 (λ made. M.id_of made.0.made ≡ id) }
    ensures causes { HasCauses (B.faults bench.old) (B.faults bench.new) (faults_of R.faults (input ∷ [])) (faults_of R.faults (result.0 ∷ [])) (IsRegroupDamage R.bytes R.size (columns_in renewal.now) renewal.now.columns.items renewal.now.values.items (result.0 ∷ [])) result.1 }
    ensures accepts { IfErr result.1 (λ e. (d : AnyDamage) → e ≡ damaged_by d → AreBounded (columns_in renewal.now) (knowns_of R.bytes (input ∷ [])) → ⊥) }
{
    let Ok(mut inputs) = Vec::with_capacity(alloc, 1) else {
        return (input, Err(CompactError::File(FileError::Memory)));
    };
    inputs.push_reserved(input);
    let (mut back, made) = regroup_range(
        alloc,
        bench,
        id,
        renewal.table.present(),
        renewal.renewed.present(),
        &renewal.columns,
        &renewal.values,
        inputs,
    );
    let Some(input) = back.pop() else {
        unreachable!()
    };
    back.destroy_empty();
    (input, made)
}
