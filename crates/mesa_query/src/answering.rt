// A query answered from its pinned files.
ghost use Rattle.std.specs.Prelude.{◌≡◌, ◌⊎◌, List, IfOk, IfErr};
ghost use Rattle.std.specs.List.{AllByRecursion};
ghost use Rattle.mesa_file.specs.declared.damage.Damage.{Damage as AnyDamage};
ghost use Rattle.mesa_group_blocks.specs.mesa_columns.declared.rows.Row.{Row as AnyRow};
ghost use Rattle.mesa_group_blocks.specs.mesa_columns.Columns.{Columns};
ghost use Rattle.mesa_group_blocks.specs.mesa_fold.Folded.{rows_of};
ghost use Rattle.mesa_group_blocks.specs.mesa_columns.Rows.{AreRowsOf};
ghost use Rattle.mesa_filter.specs.Query.{IsQueryOf};
ghost use Rattle.mesa_group_blocks.specs.mesa_delta.declared.error.FileError.TheVariants as file_error;
ghost use Rattle.mesa_group_blocks.specs.mesa_merge.Faults.{HaveFaultCause, faults_of};
ghost use Rattle.mesa_group_blocks.specs.mesa_merge.Inputs.{AreTold, knowns_of};
ghost use Rattle.mesa_group_blocks.specs.mesa_answer.Answering.{KeepsSums, grouped_columns};
ghost use Rattle.mesa_group_blocks.specs.mesa_answer.Gathering.{wanted_by};
ghost use Rattle.mesa_group_blocks.specs.mesa_open_files.Pins.{IsPinned, IsPinnedInput};
ghost use Rattle.mesa_group_blocks.specs.Moved.{inputs_in};
ghost use Rattle.mesa_query.specs.Files.{IsDamageIn, owns_in};
ghost use Rattle.mesa_group_blocks.specs.Ungrouped.{parts_ungrouped};
ghost use Rattle.mesa_query.specs.Relation.{page_over, parts_pinned};
ghost use Rattle.mesa_query.specs.Sums.{IsSumIn};

use crate::gathering::gather_each;
use crate::relation::relation_columns;
use mesa_disk::FileReader;
use mesa_filter::Query;
use mesa_group_blocks::{FileError, Groups, Pinned, PinnedInput, answer_over_parts};
use mesa_list::Items;
use mesa_model::Page;
use std::alloc::Global;
use std::thread::Threads;

/// The page of a pinned query, from its files in the order of their versions. It is the same page whatever threads do.
///
/// Where some thirty blocks or more have to be read, up to four threads test, decode and group them, each a run of its own, while every block is read here. Then some 64 blocks and four times the groups of the page are all that is held, else a block and the page's groups, and one group more each time.
pub fn answer<T: Threads + Sync, R: FileReader>(
    rt: &T,
    alloc: Global,
    pinned: &mut Pinned<R>,
) -> Result<Page, FileError>
    requires { (s : Columns) × IsPinned R.bytes s pinned.old }

    // Where each file is told and its index is true of it, this is the page over the relation's rows in all of them; on every store its rows have the form that is asked.
    ensures page { IfOk result (λ page. (s : Columns) → IsPinned R.bytes s pinned.old → (contents : List (List AnyRow)) → AreTold (knowns_of R.bytes (inputs_in pinned.old.inputs.items)) contents
        → page ≡ page_over s pinned.old.query (parts_pinned pinned.old.view pinned.old.inputs.items contents)) }
    ensures form { IfOk result (λ page. (s : Columns) → IsPinned R.bytes s pinned.old → AreRowsOf (grouped_columns s pinned.old.query.asked.columns pinned.old.query.asked.values) page.rows) }

    // It stays the same query, over the same files.
    ensures pinned { (s : Columns) → IsPinned R.bytes s pinned.old → IsPinned R.bytes s pinned.new }
    ensures rest { pinned.new ≡ record pinned.old { inputs = pinned.new.inputs } }
    ensures known { knowns_of R.bytes (inputs_in pinned.new.inputs.items) ≡ knowns_of R.bytes (inputs_in pinned.old.inputs.items) }
    ensures own { owns_in pinned.new.inputs.items ≡ owns_in pinned.old.inputs.items }

    // Read comes where the count of faults of a reader rose, and Damaged where a file isn't the recorded one, and no block was taken of those behind it, or where a sum would leave its type, and then of the newest file that holds its group. It never comes where all files are told and true and the absolute values of the rows add up to an amount in each sum column.
    ensures cause { HaveFaultCause (λ e. e ≡ file_error.Read) (faults_of R.faults (inputs_in pinned.old.inputs.items)) (faults_of R.faults (inputs_in pinned.new.inputs.items)) result }
    ensures damaged { IfErr result (λ e. (d : AnyDamage) → e ≡ file_error.Damaged d → (s : Columns) → IsPinned R.bytes s pinned.old
        → IsDamageIn R.bytes R.size d pinned.old.inputs.items pinned.new.inputs.items ⊎ IsSumIn R.bytes (wanted_by s pinned.old.query) pinned.old.query.asked.terms pinned.old.view pinned.old.inputs.items d) }
    ensures never { IfErr result (λ e. (d : AnyDamage) → e ≡ file_error.Damaged d → (s : Columns) → IsPinned R.bytes s pinned.old → (contents : List (List AnyRow)) → AreTold (knowns_of R.bytes (inputs_in pinned.old.inputs.items)) contents
        → KeepsSums s (rows_of (parts_ungrouped pinned.old.view pinned.old.inputs.items contents)) → ⊥) }
{
    answer_from(rt, alloc, &pinned.query, pinned.view, &mut pinned.inputs)
}

// The page of a query from these files.
fn answer_from<T: Threads + Sync, R: FileReader>(
    rt: &T,
    alloc: Global,
    query: &Query,
    view: Option<u8>,
    files: &mut [PinnedInput<R>],
) -> Result<Page, FileError>
    requires { (s : Columns) × IsQueryOf s query.now × AllByRecursion (IsPinnedInput R.bytes s view) files.old }
    ensures page { IfOk result (λ page. (s : Columns) → IsQueryOf s query.now → AllByRecursion (IsPinnedInput R.bytes s view) files.old → (contents : List (List AnyRow)) → AreTold (knowns_of R.bytes (inputs_in files.old)) contents
        → page ≡ page_over s query.now (parts_pinned view files.old contents)) }
    ensures form { IfOk result (λ page. (s : Columns) → IsQueryOf s query.now → AllByRecursion (IsPinnedInput R.bytes s view) files.old → AreRowsOf (grouped_columns s query.now.asked.columns query.now.asked.values) page.rows) }
    ensures pinned { (s : Columns) → AllByRecursion (IsPinnedInput R.bytes s view) files.old → AllByRecursion (IsPinnedInput R.bytes s view) files.new }
    ensures known { knowns_of R.bytes (inputs_in files.new) ≡ knowns_of R.bytes (inputs_in files.old) }
    ensures own { owns_in files.new ≡ owns_in files.old }
    ensures cause { HaveFaultCause (λ e. e ≡ file_error.Read) (faults_of R.faults (inputs_in files.old)) (faults_of R.faults (inputs_in files.new)) result }
    ensures damaged { IfErr result (λ e. (d : AnyDamage) → e ≡ file_error.Damaged d → (s : Columns) → IsQueryOf s query.now → AllByRecursion (IsPinnedInput R.bytes s view) files.old
        → IsDamageIn R.bytes R.size d files.old files.new ⊎ IsSumIn R.bytes (wanted_by s query.now) query.now.asked.terms view files.old d) }
    ensures never { IfErr result (λ e. (d : AnyDamage) → e ≡ file_error.Damaged d → (s : Columns) → IsQueryOf s query.now → AllByRecursion (IsPinnedInput R.bytes s view) files.old → (contents : List (List AnyRow)) → AreTold (knowns_of R.bytes (inputs_in files.old)) contents
        → KeepsSums s (rows_of (parts_ungrouped view files.old contents)) → ⊥) }
{
    answer_over_parts();
    let Some(first) = files.first() else {
        return Ok(Page {
            version: query.version(),
            rows: Items::new(alloc),
            resume: None,
        });
    };
    let schema = relation_columns(view, first)?;
    let mut groups = Groups::of(alloc, &schema, query)?;
    gather_each(rt, alloc, &mut groups, view, files, query.filter())?;
    Ok(groups.into_page(query)?)
}
