// A load's rows with their files: outside its turns, and once more where what it saw has changed.
ghost use Rattle.std.specs.Prelude.{◌≡◌, ◌≤◌, ◌<◌, ◌+◌, ℕ, List, Err, IfOk, OnErr};
ghost use Rattle.mesa_io.specs.Causes.{last};
ghost use Rattle.mesa_model.specs.declared.entries.Entry.{Entry as AnyEntry};
ghost use Rattle.mesa_core.specs.mesa_history_spec.Rows.{no_rows};
ghost use Rattle.mesa_open_files.specs.declared.prepared.LoadError.TheVariants as load;
ghost use Rattle.mesa_open_files.specs.Batches.{HasPrepared, batch_ids};
ghost use Rattle.mesa_file.specs.Serials.{AreNext, after_drafts};
ghost use Rattle.mesa_core.specs.Answers.{Owes};
ghost use Rattle.mesa_core.specs.Drafts.{owed_by_load};
ghost use Rattle.mesa_core.specs.Sight.{sight_after};
ghost use Rattle.mesa_session_turns.specs.Loads.{StaysPrepared};

use mesa_batch::{Glance, LoadRows};
use mesa_core::{Vault, sights_last};
use mesa_disk::{Bench, Disk, Made};
use mesa_engine::Naming;
use mesa_file::Serials;
use mesa_io::Sink;
use mesa_load::prepare;
use mesa_open_files::{LoadError, Prepared};
use std::alloc::{AllocError, Global};
use std::thread::Threads;

// A load's rows with their files, by what it sees.
fn prepared_by<R: Threads + Sync, M: Made, B: Bench<M>>(
    rt: &R,
    alloc: Global,
    bench: &mut B,
    ids: &mut Serials,
    seen: Result<Glance, AllocError>,
    rows: &LoadRows,
) -> Result<Prepared<M>, LoadError>
    ensures seen { IfOk seen (λ g. HasPrepared M.bytes M.id_of g rows.now result) }
    ensures unseen { OnErr seen (result ≡ Err load.Memory) }
    ensures owes { Owes (B.faults bench.old) (B.faults bench.new) (owed_by_load result) }
    ensures numbered { IfOk result (λ p. AreNext ids.old ids.new (batch_ids M.id_of p.parts.items)) }
    ensures ids { (n : ℕ) × (ids.new ≡ after_drafts n ids.old) }
{
    match seen {
        Ok(glance) => prepare(rt, alloc, bench, ids, &glance, rows),
        Err(_) => Err(LoadError::Memory),
    }
}

// The generation of what a load sees; 0 where there was no memory for it.
fn generation_seen(looked: &Result<Glance, AllocError>) -> u64
    ensures { IfOk looked.now (λ g. result ≡ g.generation) }
{
    match looked {
        Ok(glance) => glance.generation(),
        Err(_) => 0,
    }
}

/// A load's rows as they were prepared by its look, and the generation for which they stand.
pub fn prepared_first<N: Naming, M: Made, R: Threads + Sync, B: Bench<M>>(
    rt: &R,
    alloc: Global,
    bench: &mut B,
    ids: &mut Serials,
    looked: Result<Glance, AllocError>,
    rows: &LoadRows,
) -> (u64, Result<Prepared<M>, LoadError>)
    ensures stays { (h : List AnyEntry) → IfOk looked (λ g. g ≡ sight_after N.script (N.start no_rows) (N.origin no_rows).generation h)
        → StaysPrepared M.bytes M.id_of (sight_after N.script (N.start no_rows) (N.origin no_rows).generation) h result.0 rows.now result.1 }
    ensures owes { Owes (B.faults bench.old) (B.faults bench.new) (owed_by_load result.1) }
    ensures numbered { IfOk result.1 (λ p. AreNext ids.old ids.new (batch_ids M.id_of p.parts.items)) }
    ensures ids { (n : ℕ) × (ids.new ≡ after_drafts n ids.old) }
{
    sights_last();
    let generation = generation_seen(&looked);
    (generation, prepared_by(rt, alloc, bench, ids, looked, rows))
}

/// They once more, in the deciding turn: those that there are, or anew where the generation has changed.
pub(crate) fn prepared_now<
    's,
    N: Naming + Send,
    M: Made,
    D: Disk<M>,
    K: Sink + Send,
    R: Threads + Sync,
    B: Bench<M>,
>(
    rt: &R,
    alloc: Global,
    vault: &Vault<'s, N, M, D, K>,
    bench: &mut B,
    ids: &mut Serials,
    generation: u64,
    made: Result<Prepared<M>, LoadError>,
    rows: &LoadRows,
) -> Result<Prepared<M>, LoadError>
    requires { (sight_after N.script (N.start no_rows) (N.origin no_rows).generation vault.now.shown.history).generation ≡ generation
        → HasPrepared M.bytes M.id_of (sight_after N.script (N.start no_rows) (N.origin no_rows).generation vault.now.shown.history) rows.now made }
    ensures made { HasPrepared M.bytes M.id_of (sight_after N.script (N.start no_rows) (N.origin no_rows).generation vault.now.shown.history) rows.now result }
    ensures unchanged { (sight_after N.script (N.start no_rows) (N.origin no_rows).generation vault.now.shown.history).generation ≡ generation → (result ≡ made) × (bench.new ≡ bench.old) × (ids.new ≡ ids.old) }
    ensures later { B.faults bench.new < last → B.faults bench.old ≤ B.faults bench.new }
    ensures owes { B.faults bench.new < last → B.faults bench.old + owed_by_load result ≤ B.faults bench.new + owed_by_load made }
    ensures ids { (n : ℕ) × (ids.new ≡ after_drafts n ids.old) }
{
    if vault.generation() == generation {
        return made;
    }
    drop(made);
    prepared_by(rt, alloc, bench, ids, vault.glance(), rows)
}
