// The top call.
ghost use Rattle.std.specs.Prelude.{◌≡◌, ◌≢◌, ◌≤◌, ℕ, List, Some, length, map};
ghost use Rattle.mesa_engine.specs.mesa_store_spec.Catalog.{Catalog as AnyCatalog};
ghost use Rattle.mesa_model.specs.declared.commands.Script.{Script as AnyScript};
ghost use Rattle.mesa_session.specs.mesa_history_spec.Rows.{Rows};
ghost use Rattle.mesa_shell.specs.Completing.{AsksFor, Completes, Decides, HasRoomToRun, IsUndamaged, NoneRose, NothingFailed};
ghost use Rattle.mesa_shell.specs.Exit as spec;
ghost use Rattle.mesa_shell.specs.Ports.{ports};
ghost use Rattle.mesa_shell.specs.Scripts.{IsSmall};
ghost use Rattle.mesa_shell.specs.Statuses.{Tells};
ghost use Rattle.mesa_recover.specs.Opening.{IsSoundStart};
ghost use Rattle.mesa_parse.specs.Forms.{form_of};
ghost use Rattle.mesa_parse.specs.declared.forms.Form.TheVariants as form;

use crate::checking::check_store;
use crate::digesting::digest_relation;
use crate::generating::run_generated;
use crate::indexing::{with_indexes, without_indexes};
use crate::opening::open;
use crate::running::{Left, run_begun};
use crate::{
    Devices, Done, ended, ended_opening, ended_refused, lacks_memory, run_status,
    scripts_are_small, statuses,
};
use mesa_disk::{Bench, Disk, Made};
use mesa_io::{ReadError, Sink, Source, read_all};
use mesa_model::Script;
use mesa_open_files::DeltaDisk;
use mesa_parse::{Form, parse, read_form};
use mesa_script::ScriptError;
use mesa_session::Gate;
use std::alloc::{AllocError, Global};
use std::sync::Wait;
use std::thread::Threads;

/// The longest input, in bytes.
pub const MAX_INPUT: u64 = 67_108_864;

// Opens the store, and runs a script over it.
fn run_script<
    M: Made,
    D: DeltaDisk<M>,
    K: Sink + Send,
    B: Bench<M>,
    R: Threads + Wait + Sync,
    G: Gate,
>(rt: &R, alloc: Global, script: &Script, given: Devices<K, D, B>, gate: &G) -> Done<K, D, B>
    requires small { IsSmall script.now }
    requires benches { 8 ≤ length given.benches.items }
    ensures { spec.EndsScript (ports K.held K.faults D.story M.bytes B.faults) given result script.now }
{
    let Devices { out, disk, benches } = given;
    let begun = match open(alloc, disk) {
        Ok(begun) => begun,
        Err((error, disk)) => return ended_opening(alloc, Devices { out, disk, benches }, &error),
    };
    match run_begun(rt, alloc, script, begun, out, benches, gate) {
        Ok(left) => {
            let Left {
                out,
                disk,
                benches,
                history,
                failed,
                refused,
            } = left;
            Done {
                status: run_status(failed, refused),
                out,
                disk,
                benches,
                history,
            }
        }
        Err(given) => lacks_memory(alloc, given),
    }
}

// Runs the script of a text.
fn run_text<
    M: Made,
    D: DeltaDisk<M>,
    K: Sink + Send,
    B: Bench<M>,
    R: Threads + Wait + Sync,
    G: Gate,
>(rt: &R, alloc: Global, bytes: Vec<u8>, given: Devices<K, D, B>, gate: &G) -> Done<K, D, B>
    requires benches { 8 ≤ length given.benches.items }
    ensures { spec.EndsText (ports K.held K.faults D.story M.bytes B.faults) given result bytes.items }
{
    scripts_are_small();
    match parse(alloc, bytes) {
        Ok(script) => run_script(rt, alloc, &script, given, gate),
        Err(ScriptError::Memory) => lacks_memory(alloc, given),
        Err(error) => ended_refused(alloc, given, &error),
    }
}

// Reads the source, and runs its script.
fn run_source<
    S: Source,
    M: Made,
    D: DeltaDisk<M>,
    K: Sink + Send,
    B: Bench<M>,
    R: Threads + Wait + Sync,
    G: Gate,
>(rt: &R, alloc: Global, src: &mut S, given: Devices<K, D, B>, gate: &G) -> Done<K, D, B>
    requires benches { 8 ≤ length given.benches.items }
    ensures { spec.EndsRun (ports K.held K.faults D.story M.bytes B.faults) given result (S.left src.old) (S.faults src.old) (S.faults src.new) }
{
    match read_all(alloc, src, MAX_INPUT) {
        Ok(bytes) => run_text(rt, alloc, bytes, given, gate),
        Err(ReadError::Fault) => ended(
            alloc,
            given,
            statuses::SOURCE_FAULT,
            b"mesa: source fault\n",
        ),
        Err(ReadError::TooLong { .. }) => ended(
            alloc,
            given,
            statuses::TOO_LONG,
            b"mesa: input over 67108864 bytes\n",
        ),
        Err(ReadError::Memory) => lacks_memory(alloc, given),
    }
}

// The line of words that have no form.
const USAGE: &[u8] =
    b"mesa: usage: mesa run | mesa check | mesa gen SEED VERSIONS | mesa digest NAME\n";

/// The program. With the word `run` alone it reads a script from the source, opens the store on the
/// disk, runs the script over it, each session but the first in a thread of its own, and prints every
/// reply onto the sink. With `gen`, a seed and a number of versions it runs the script that these give
/// in the same way, and prints the replies to the last three of its commands. Session s builds its
/// files on bench s. With `check` it reads the store, changes nothing, and prints that it is sound, or
/// its first fault. With `digest` and a name it reads the store, changes nothing, and prints how many
/// rows the relation of that name has at the newest version, and their two digests.
pub fn mesa<
    S: Source,
    M: Made,
    D: Disk<M>,
    K: Sink + Send,
    B: Bench<M>,
    R: Threads + Wait + Sync,
    G: Gate,
>(
    rt: &R,
    alloc: Global,
    words: &[&str],
    src: &mut S,
    out: K,
    disk: D,
    benches: Vec<B>,
    gate: &G,
) -> Done<K, D, B>
    requires benches { 8 ≤ length benches.items }
    ensures ends { spec.Ends (ports K.held K.faults D.story M.bytes B.faults) (record { out = out; disk = disk; benches = benches }) result (form_of (map (λ w. w.now) words.now)) (S.left src.old) (S.faults src.old) (S.faults src.new) }
    ensures tells { Tells (ports K.held K.faults D.story M.bytes B.faults) (record { out = out; disk = disk; benches = benches }) result (form_of (map (λ w. w.now) words.now)) (S.left src.old) (S.faults src.old) (S.faults src.new) }
    ensures untouched { form_of (map (λ w. w.now) words.now) ≢ Some Form.Run → src.new ≡ src.old }

    // Where a script is to be run over a sound store and nothing fails, every reply is the reference warehouse's, or memory.
    ensures completes { (script : AnyScript) (c : AnyCatalog) (rows : Rows) → AsksFor (form_of (map (λ w. w.now) words.now)) (S.left src.old) script → HasRoomToRun (ports K.held K.faults D.story M.bytes B.faults) (record { out = out; disk = disk; benches = benches }) c rows
        → NothingFailed (ports K.held K.faults D.story M.bytes B.faults) (record { out = out; disk = disk; benches = benches }) result (S.faults src.old) (S.faults src.new) → Completes result }

    // Where a name is to be looked up in a sound store and nothing fails, it is refused, or its digests are printed, or memory was short.
    ensures looks { (name : List ℕ) (c : AnyCatalog) (rows : Rows) → form_of (map (λ w. w.now) words.now) ≡ Some (form.Digest name) → IsSoundStart (D.story disk) c rows → NoneRose (ports K.held K.faults D.story M.bytes B.faults) (record { out = out; disk = disk; benches = benches }) result → Decides result }

    // Where a store that isn't damaged is to be checked and nothing fails, there is a verdict, or memory was short.
    ensures decides { form_of (map (λ w. w.now) words.now) ≡ Some Form.Check → IsUndamaged (D.story disk) → NoneRose (ports K.held K.faults D.story M.bytes B.faults) (record { out = out; disk = disk; benches = benches }) result → Decides result }
{
    let given = Devices { out, disk, benches };
    match read_form(alloc, words) {
        Ok(Some(Form::Run)) => {
            let given = with_indexes(alloc, given);
            without_indexes(run_source(rt, alloc, src, given, gate))
        }
        Ok(Some(Form::Gen { seed, versions })) => {
            let given = with_indexes(alloc, given);
            without_indexes(run_generated(rt, alloc, seed, versions, given, gate))
        }
        Ok(Some(Form::Check)) => {
            let given = with_indexes(alloc, given);
            without_indexes(check_store(alloc, given))
        }
        Ok(Some(Form::Digest { relation })) => {
            let given = with_indexes(alloc, given);
            without_indexes(digest_relation(alloc, given, relation.as_slice()))
        }
        Ok(None) => ended(alloc, given, statuses::USAGE, USAGE),
        Err(AllocError) => lacks_memory(alloc, given),
    }
}
