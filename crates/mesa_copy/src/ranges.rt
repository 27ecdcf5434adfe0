// The ranges of a recast, rewritten one after the other.
ghost use Rattle.std.specs.Prelude.{◌≡◌, ◌++◌, ℕ, List, flat_map, length, take, IfErr, OnOk};
ghost use Rattle.mesa_file.specs.declared.damage.Damage.{Damage as AnyDamage};
ghost use Rattle.mesa_schema.specs.Recasts.{Recast as Asked};
ghost use Rattle.mesa_compact.specs.mesa_merge.Faults.{faults_of};
ghost use Rattle.mesa_open_files.specs.Recasts.{AreRangesOf, AreRewritten, own, recast_ids};
ghost use Rattle.mesa_file.specs.Serials.{AreNext, after_drafts};
ghost use Rattle.mesa_open_files.specs.declared.recasting.RecastedRange.{RecastedRange as AnyRange};
ghost use Rattle.mesa_compact.specs.Writing.{HasCauses, damaged_by};
ghost use Rattle.mesa_copy.specs.Copying.{AreRangesBounded, IsRangesDamage, known_ranges};
ghost use Rattle.mesa_copy.specs.Renewals.{IsRenewal, columns_in};

use crate::range::rewrite_range;
use crate::renewal::Renewal;
use mesa_delta::FileError;
use mesa_disk::{Bench, FileReader, Made};
use mesa_file::Serials;
use mesa_open_files::{CompactError, RecastRange, RecastedRange};
use std::alloc::Global;

/// Rewrites the ranges behind those that are made, in their order. After an error those that were rewritten before it are made too.
pub fn rewrite_ranges<M: Made, B: Bench<M>, R: FileReader>(
    alloc: Global,
    bench: &mut B,
    ids: &mut Serials,
    renewal: &Renewal,
    ranges: &mut [RecastRange<R>],
    made: &mut Vec<RecastedRange<M>>,
) -> Result<(), CompactError>
    requires begun { (r : Asked) × IsRenewal r renewal.now × AreRewritten M.bytes M.id_of R.bytes (columns_in renewal.now) r (take (length made.old.items) ranges.old) made.old.items }
    requires ranges { AreRangesOf R.bytes renewal.now.table.value ranges.old }
    ensures rewritten { OnOk result ((r : Asked) → IsRenewal r renewal.now → AreRewritten M.bytes M.id_of R.bytes (columns_in renewal.now) r (take (length made.old.items) ranges.old) made.old.items
        → AreRewritten M.bytes M.id_of R.bytes (columns_in renewal.now) r ranges.old made.new.items) }
    ensures more { (more : List (AnyRange M)) × (made.new.items ≡ made.old.items ++ more) × OnOk result (AreNext ids.old ids.new (recast_ids M.id_of more)) }
    ensures ids { (n : ℕ) × (ids.new ≡ after_drafts n ids.old) }
    ensures known { known_ranges R.bytes ranges.new ≡ known_ranges R.bytes ranges.old }
    ensures kept { AreRangesOf R.bytes renewal.now.table.value ranges.new }
    ensures causes { HasCauses (B.faults bench.old) (B.faults bench.new) (faults_of R.faults (flat_map own ranges.old)) (faults_of R.faults (flat_map own ranges.new)) (IsRangesDamage R.bytes R.size (columns_in renewal.now) renewal.now.columns.items renewal.now.values.items ranges.new) result }
    ensures accepts { IfErr result (λ e. (d : AnyDamage) → e ≡ damaged_by d → AreRangesBounded R.bytes (columns_in renewal.now) ranges.old → ⊥) }
{
    'each: for i in made.len()..ranges.len() {
        let rewritten = match rewrite_range(alloc, bench, ids, renewal, &mut ranges[i]) {
            Ok(rewritten) => rewritten,
            Err(error) => return Err(error),
        };
        match made.push(rewritten) {
            Ok(()) => {}
            Err(_) => return Err(CompactError::File(FileError::Memory)),
        }
    }
    Ok(())
}
