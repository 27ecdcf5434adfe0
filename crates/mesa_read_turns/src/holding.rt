// The files of a session's query, and what holds them.
ghost use Rattle.std.specs.Prelude.{◌≡◌, true, IfErr, IfOk, OnErr, OnOk, Some};
ghost use Rattle.mesa_read_turns.specs.Opening.{HasItsFiles, HasUnsoundFile, asked_state, is_unread, tells_damage};
ghost use Rattle.mesa_read_turns.specs.Seeing.{catalogue_asked};
ghost use Rattle.mesa_disk.specs.Story.{Unmoved};
ghost use Rattle.mesa_engine.specs.mesa_store_spec.Catalog.{Catalog as AnyCatalog};
ghost use Rattle.mesa_engine.specs.mesa_store_spec.Shape.{IsCatalog};
ghost use Rattle.mesa_engine.specs.EngineState.{books_of};
ghost use Rattle.mesa_engine.specs.Failure.{cause_in};
ghost use Rattle.mesa_engine.specs.Memory.{with_state};
ghost use Rattle.mesa_columns.specs.Columns.{Columns};
ghost use Rattle.mesa_engine.specs.mesa_history_spec.Rows.{no_rows};
ghost use Rattle.mesa_open_files.specs.Pins.{IsPinned};
ghost use Rattle.mesa_engine.specs.mesa_invariant_spec.Queries.{HasNoAnswer};
ghost use Rattle.mesa_engine.specs.mesa_invariant_spec.Invariant.{Counts};

use crate::query_files::files_asked;
use mesa_disk::Made;
use mesa_engine::{Failure, Metadata};
use mesa_filter::{QueryWords, VersionWord};
use mesa_open_files::{DeltaDisk, Pinned, retire_pinned};
use std::alloc::{AllocError, Global};

// The files that answer a session's query, for a reply at the position of this turn, held until it is closed; or why it isn't answered.
pub(crate) fn hold_files<M: Made, D: DeltaDisk<M>>(
    alloc: Global,
    disk: &mut D,
    metadata: &mut Metadata,
    session: u16,
    words: &QueryWords,
    at: u64,
) -> Result<Pinned<D::Reader>, Failure>
    requires { (c : AnyCatalog) → catalogue_asked metadata.old.state session words.now.version ≡ Some c → IsCatalog c }
    ensures unmoved { Unmoved (D.story disk.old) (D.story disk.new) }
    ensures counts { Counts (D.story disk.old) (D.story disk.new) (is_unread result) }
    ensures at { IfOk result (λ p. p.at ≡ at) }
    ensures pinned { IfOk result (λ p. (s : Columns) × IsPinned D.Reader.bytes s p) }
    ensures files { IfOk result (HasItsFiles D.Reader.bytes D.Reader.faults (D.story disk.old).told metadata.old.state session words.now) }
    ensures held { OnOk result (metadata.new ≡ with_state (asked_state metadata.old.state session words.now.version at) metadata.old) }
    ensures refused { IfErr result (λ failure. HasNoAnswer (books_of no_rows metadata.old.state) session words.now (cause_in failure)) }
    ensures unsound { IfErr result (λ failure. tells_damage failure ≡ true → HasUnsoundFile (D.story disk.old).told metadata.old.state session words.now) }
    ensures kept { OnErr result (metadata.new ≡ metadata.old) }
{
    let pinned = match files_asked(alloc, disk, metadata, session, words, at) {
        Ok(pinned) => pinned,
        Err(failure) => return Err(failure),
    };
    match hold(metadata, session, words.version, at) {
        Ok(()) => Ok(pinned),
        Err(_) => {
            retire_pinned(disk, pinned);
            Err(Failure::Memory)
        }
    }
}

// Holds the files that are named in a turn for a session's query; a query at a pin needs no hold of its own.
fn hold(
    metadata: &mut Metadata,
    session: u16,
    asked: VersionWord,
    at: u64,
) -> Result<(), AllocError>
    ensures held { OnOk result (metadata.new ≡ with_state (asked_state metadata.old.state session asked at) metadata.old) }
    ensures kept { OnErr result (metadata.new ≡ metadata.old) }
{
    match asked {
        VersionWord::Latest | VersionWord::At(_) => metadata.open_query(session, at),
        VersionWord::Pin(_) => Ok(()),
    }
}
