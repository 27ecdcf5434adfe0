// Pins and open queries.
ghost use Rattle.std.specs.Prelude.{◌≡◌, ◌+◌, ◌<◌, ◌^◌, is_some, find, IfOk, OnErr, OnOk};
ghost use Rattle.mesa_model.specs.Pins.{count_at};
ghost use Rattle.mesa_engine.specs.Turned.{answered_state, is_held_pin, pinned_state, queried_state, released_state};
ghost use Rattle.mesa_engine.specs.Memory.{hold_now, is_of_another, with_state};

use crate::Metadata;
use crate::counts::count;
use crate::holders::{Pin, Query};
use std::alloc::AllocError;

impl Metadata {
    /// Pins a version for a session in the turn at the position, with a copy of the catalogue: gives its token.
    pub fn pin(&mut self, session: u16, version: u32, position: u64) -> Result<u32, AllocError>
        // A token is a number of 32 bits.
        requires { count_at self.old.state.given session + 1 < 2 ^ 32 }
        ensures token { IfOk result (λ token. token ≡ count_at self.old.state.given session + 1) }
        ensures pinned { OnOk result (self.new ≡ with_state (pinned_state self.old.state session version (hold_now self.old.state position)) self.old) }
        ensures err { OnErr result (self.new ≡ self.old) }
    {
        let hold = self.hold_now(position);
        self.holders.reserve_pin()?;
        let copy = self.catalog.copy(self.alloc)?;
        let token = count(&mut self.given, session)?;
        self.holders.add_pin(Pin {
            session,
            token,
            version,
            hold,
            copy,
        });
        Ok(token)
    }

    /// Lets a session's pin with this token go, if it is held.
    pub fn release(&mut self, session: u16, token: u32)
        ensures { self.new ≡ with_state (released_state self.old.state session token) self.old }
    {
        self.holders.release(session, token);
    }

    /// Holds the files that are named in the turn at the position, for a query of the session.
    pub fn open_query(&mut self, session: u16, position: u64) -> Result<(), AllocError>
        ensures queried { OnOk result (self.new ≡ with_state (queried_state self.old.state session (hold_now self.old.state position)) self.old) }
        ensures err { OnErr result (self.new ≡ self.old) }
    {
        let hold = self.hold_now(position);
        self.holders.add_query(Query { session, hold })
    }

    /// Gives back what the session's query holds.
    pub fn close_query(&mut self, session: u16)
        ensures { self.new ≡ with_state (answered_state self.old.state (is_of_another session)) self.old }
    {
        self.holders.answer(session);
    }
}
