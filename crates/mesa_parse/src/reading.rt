// What was read of a script so far.
ghost use Rattle.std.specs.Prelude.{◌≡◌, ◌≢◌, IfErr, IfOk, OnOk, Ok};
ghost use Rattle.mesa_script.specs.Script.{fits_order as follows, item_at, nothing_read, with_item, with_record};
ghost use Rattle.csv.specs.Records.{fields_of};
ghost use Rattle.mesa_parse.specs.Failures.{Tells};
ghost use Rattle.mesa_script.specs.Items.{NextSession, Single};
ghost use Rattle.mesa_parse.specs.Ended.{ended};
ghost use Rattle.mesa_parse.specs.Said.{item_as, name_as};

use crate::failed::Failed;
use crate::items::{Said, read_item};
use crate::kinds::Kind;
use csv::ByteRecord;
use mesa_batch::LoadRows;
use mesa_list::Items;
use mesa_model::{Command, Script, Session};
use mesa_script::{Reason, ScriptError};
use std::alloc::Global;
use std::marker::Model;
use std::mem;

/// How many turns a lease lasts where the script doesn't say.
const DEFAULT_LEASE: u32 = 4096;

/// How many commands a script may have.
const MAX_COMMANDS: usize = 200_000;

/// How many sessions a script may have, the prologue included.
const MAX_SESSIONS: usize = 8;

/// What was read so far: the lease's length, the sessions that are whole, the commands of the one
/// at hand, the rows of a load that hasn't ended, and how many commands there were.
#[derive(Drop)]
pub(crate) struct Reading {
    lease: u32,
    finished: Items<Session>,
    current: Session,
    rows: LoadRows,
    count: usize,
}

impl Model for Reading {
    ghost use Rattle.mesa_script.specs.Script.{Read};

    ghost Value = { Read };

    ghost view = { λ r. record { lease = r.lease; finished = r.finished; current = r.current; rows = r.rows; count = r.count } };
}

impl Reading {
    /// Before the first record.
    pub(crate) fn new(alloc: Global) -> Self
        ensures { result ≡ nothing_read }
    {
        Reading {
            lease: DEFAULT_LEASE,
            finished: Items::new(alloc),
            current: Items::new(alloc),
            rows: LoadRows::new(alloc),
            count: 0,
        }
    }

    // Whether a record of a kind may stand at a place: a lease is the first record, and only a row
    // or a commit follows a row.
    fn fits_order(&self, place: u64, kind: Kind) -> bool
        ensures { result ≡ follows place (name_as kind) self.now.rows }
    {
        match kind {
            Kind::Row | Kind::Commit => true,
            Kind::Lease => place == 1,
            _ => self.rows.is_empty(),
        }
    }

    // What the next record says, or what is wrong with it.
    fn next_said<'a>(
        &self,
        alloc: Global,
        place: u64,
        fields: &'a ByteRecord,
    ) -> Result<Said<'a>, Failed>
        ensures read { IfOk result (λ said. item_at place (fields_of fields.now) self.now.rows ≡ Ok (item_as said)) }
        ensures refused { IfErr result (λ e. Tells e (item_at place (fields_of fields.now) self.now.rows)) }
    {
        let Some(kind) = Kind::of(fields) else {
            return Err(Failed::Bad(Reason::Unknown));
        };
        if !kind.fits_fields(fields) {
            return Err(Failed::Bad(Reason::Fields));
        }
        if !self.fits_order(place, kind) {
            return Err(Failed::Bad(Reason::Order));
        }
        read_item(alloc, kind, fields)
    }

    // Adds a command; the rows of a load go into it.
    fn add_command(
        &mut self,
        alloc: Global,
        place: u64,
        command: Command,
    ) -> Result<(), ScriptError>
        ensures read { OnOk result (with_item place (Single command) self.old ≡ Ok self.new) }
        ensures refused { IfErr result (λ e. e ≢ ScriptError.Memory → with_item place (Single command) self.old ≡ Err e) }
    {
        if self.count >= MAX_COMMANDS {
            return Err(ScriptError::TooManyCommands { place });
        }
        if self.current.push(command).is_err() {
            return Err(ScriptError::Memory);
        }
        self.rows = LoadRows::new(alloc);
        self.count += 1;
        Ok(())
    }

    // Ends the session at hand and begins the next one.
    fn next_session(&mut self, alloc: Global, place: u64) -> Result<(), ScriptError>
        ensures read { OnOk result (with_item place NextSession self.old ≡ Ok self.new) }
        ensures refused { IfErr result (λ e. e ≢ ScriptError.Memory → with_item place NextSession self.old ≡ Err e) }
    {
        if self.finished.len() >= MAX_SESSIONS - 1 {
            return Err(ScriptError::TooManySessions { place });
        }
        let whole = mem::replace(&mut self.current, Items::new(alloc));
        match self.finished.push(whole) {
            Ok(()) => Ok(()),
            Err(_) => Err(ScriptError::Memory),
        }
    }

    // Adds what a record says.
    fn add(&mut self, alloc: Global, place: u64, said: Said) -> Result<(), ScriptError>
        ensures read { OnOk result (with_item place (item_as said.entry) self.old ≡ Ok self.new) }
        ensures refused { IfErr result (λ e. e ≢ ScriptError.Memory → with_item place (item_as said.entry) self.old ≡ Err e) }
    {
        match said {
            Said::LeaseOf(turns) => {
                self.lease = turns;
                Ok(())
            }
            Said::NextSession => self.next_session(alloc, place),
            Said::Row(words) => match self.rows.push(&words) {
                Ok(()) => Ok(()),
                Err(_) => Err(ScriptError::Memory),
            },
            Said::EndOfLoad => {
                let rows = mem::replace(&mut self.rows, LoadRows::new(alloc));
                self.add_command(alloc, place, Command::Load(rows))
            }
            Said::Single(command) => self.add_command(alloc, place, command),
        }
    }

    /// Takes the record at a place.
    pub(crate) fn take(
        &mut self,
        alloc: Global,
        place: u64,
        fields: &ByteRecord,
    ) -> Result<(), ScriptError>
        ensures read { OnOk result (with_record place (fields_of fields.now) self.old ≡ Ok self.new) }
        ensures refused { IfErr result (λ e. e ≢ ScriptError.Memory → with_record place (fields_of fields.now) self.old ≡ Err e) }
    {
        match self.next_said(alloc, place, fields) {
            Ok(said) => self.add(alloc, place, said),
            Err(failed) => Err(failed.at(place)),
        }
    }

    /// The script that was read, where the input ends before the record at a place.
    pub(crate) fn end(self, place: u64) -> Result<Script, ScriptError>
        ensures read { IfOk result (λ script. ended place self ≡ Ok script) }
        ensures refused { IfErr result (λ e. e ≢ ScriptError.Memory → ended place self ≡ Err e) }
    {
        if !self.rows.is_empty() {
            return Err(ScriptError::BadRecord {
                place,
                reason: Reason::Order,
            });
        }
        let mut sessions = self.finished;
        if sessions.push(self.current).is_err() {
            return Err(ScriptError::Memory);
        }
        Ok(Script {
            lease: self.lease,
            sessions,
        })
    }
}
