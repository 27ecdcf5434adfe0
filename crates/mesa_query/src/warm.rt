// A pinned query whose files are read through caches.
ghost use Rattle.std.specs.Prelude.{◌≡◌, ◌≤◌, ◌⊎◌, List, IfOk, IfErr};
ghost use Rattle.mesa_group_blocks.specs.mesa_delta.declared.error.FileError.TheVariants as file_error;
ghost use Rattle.mesa_file.specs.declared.damage.Damage.{Damage as AnyDamage};
ghost use Rattle.mesa_group_blocks.specs.mesa_columns.declared.rows.Row.{Row as AnyRow};
ghost use Rattle.mesa_group_blocks.specs.mesa_columns.Columns.{Columns};
ghost use Rattle.mesa_group_blocks.specs.mesa_fold.Folded.{rows_of};
ghost use Rattle.mesa_group_blocks.specs.mesa_columns.Rows.{AreRowsOf};
ghost use Rattle.mesa_group_blocks.specs.mesa_answer.Answering.{KeepsSums, grouped_columns};
ghost use Rattle.mesa_group_blocks.specs.mesa_answer.Gathering.{wanted_by};
ghost use Rattle.mesa_group_blocks.specs.mesa_merge.Faults.{HaveFaultCause, faults_of};
ghost use Rattle.mesa_group_blocks.specs.mesa_merge.Inputs.{AreTold, knowns_of};
ghost use Rattle.mesa_group_blocks.specs.Moved.{inputs_in};
ghost use Rattle.mesa_query.specs.Files.{IsDamageIn, owns_in};
ghost use Rattle.mesa_group_blocks.specs.Ungrouped.{parts_ungrouped};
ghost use Rattle.mesa_query.specs.Relation.{page_over, parts_pinned};
ghost use Rattle.mesa_query.specs.Sums.{IsSumIn};
ghost use Rattle.mesa_group_blocks.specs.mesa_open_files.Pins.{IsPinned};
ghost use Rattle.mesa_query.specs.Same.{IsSamePin};

use crate::answer;
use crate::caching::{cool_all, warm_all};
use mesa_cache::Cached;
use mesa_disk::FileReader;
use mesa_group_blocks::{FileError, Pinned, PinnedInput};
use mesa_model::Page;
use std::alloc::{AllocError, Global};
use std::marker::Model;
use std::thread::Threads;

/// A pinned query each of whose files is read through a cache of its own.
#[derive(Drop)]
pub struct Warm<R: FileReader> {
    alloc: Global,
    pinned: Pinned<Cached<R>>,
    /// Room for the files without their caches, so that giving them back takes no memory.
    room: Vec<PinnedInput<R>>,
}

impl<R: FileReader> Model for Warm<R> {
    ghost use Rattle.mesa_group_blocks.specs.mesa_open_files.declared.querying.Pinned.{Pinned as AnyPinned};
    ghost use Rattle.mesa_query.specs.Cooled.{cooled};
    ghost use Rattle.mesa_query.specs.Kept.{IsKept};

    ghost Value = { AnyPinned R };

    ghost view = { λ w. cooled w.pinned };

    ghost invariant = { λ w. IsKept R.bytes w.pinned w.room };
}

impl<R: FileReader> Warm<R> {
    /// The query with a cache of at most so many pages for each file. Nothing is read yet.
    pub fn new(
        alloc: Global,
        pinned: Pinned<R>,
        pages: usize,
    ) -> Result<Self, (AllocError, Pinned<R>)>
        requires pages { 1 ≤ pages }
        requires pinned { (s : Columns) × IsPinned R.bytes s pinned }
        ensures same { IfOk result (λ warm. IsSamePin R.bytes pinned warm) }
        ensures given_back { IfErr result (λ e. IsSamePin R.bytes pinned e.1) }
    {
        let Pinned {
            query,
            version,
            view,
            at,
            inputs,
        } = pinned;
        match warm_all(alloc, inputs, pages) {
            Ok((inputs, room)) => Ok(Warm {
                alloc,
                pinned: Pinned {
                    query,
                    version,
                    view,
                    at,
                    inputs,
                },
                room,
            }),
            Err((error, inputs)) => Err((
                error,
                Pinned {
                    query,
                    version,
                    view,
                    at,
                    inputs,
                },
            )),
        }
    }

    /// The page of the query, as `answer` of `mesa_query` gives it.
    pub fn answer<T: Threads + Sync>(&mut self, rt: &T) -> Result<Page, FileError>
        // Where each file is told and its index is true of it, this is the page over the relation's rows in all of them; on every store its rows have the form that is asked.
        ensures page { IfOk result (λ page. (s : Columns) → IsPinned R.bytes s self.old → (contents : List (List AnyRow)) → AreTold (knowns_of R.bytes (inputs_in self.old.inputs.items)) contents
            → page ≡ page_over s self.old.query (parts_pinned self.old.view self.old.inputs.items contents)) }
        ensures form { IfOk result (λ page. (s : Columns) → IsPinned R.bytes s self.old → AreRowsOf (grouped_columns s self.old.query.asked.columns self.old.query.asked.values) page.rows) }

        // It stays the same query, over the same files.
        ensures pinned { (s : Columns) → IsPinned R.bytes s self.old → IsPinned R.bytes s self.new }
        ensures rest { self.new ≡ record self.old { inputs = self.new.inputs } }
        ensures known { knowns_of R.bytes (inputs_in self.new.inputs.items) ≡ knowns_of R.bytes (inputs_in self.old.inputs.items) }
        ensures own { owns_in self.new.inputs.items ≡ owns_in self.old.inputs.items }

        // Read comes where the count of faults of a file's own reader rose, and Damaged where a file isn't the recorded one, and no block was taken of those behind it, or where a sum would leave its type, and then of the newest file that holds its group. It never comes where all files are told and true and the absolute values of the rows add up to an amount in each sum column.
        ensures cause { HaveFaultCause (λ e. e ≡ file_error.Read) (faults_of R.faults (inputs_in self.old.inputs.items)) (faults_of R.faults (inputs_in self.new.inputs.items)) result }
        ensures damaged { IfErr result (λ e. (d : AnyDamage) → e ≡ file_error.Damaged d → (s : Columns) → IsPinned R.bytes s self.old
            → IsDamageIn R.bytes R.size d self.old.inputs.items self.new.inputs.items ⊎ IsSumIn R.bytes (wanted_by s self.old.query) self.old.query.asked.terms self.old.view self.old.inputs.items d) }
        ensures never { IfErr result (λ e. (d : AnyDamage) → e ≡ file_error.Damaged d → (s : Columns) → IsPinned R.bytes s self.old → (contents : List (List AnyRow)) → AreTold (knowns_of R.bytes (inputs_in self.old.inputs.items)) contents
            → KeepsSums s (rows_of (parts_ungrouped self.old.view self.old.inputs.items contents)) → ⊥) }
    {
        answer(rt, self.alloc, &mut self.pinned)
    }

    /// The query without the caches. It takes no memory.
    pub fn cool(self) -> Pinned<R>
        ensures { IsSamePin R.bytes self result }
    {
        let Warm {
            alloc: _alloc,
            pinned,
            room,
        } = self;
        let Pinned {
            query,
            version,
            view,
            at,
            inputs,
        } = pinned;
        Pinned {
            query,
            version,
            view,
            at,
            inputs: cool_all(inputs, room),
        }
    }
}
