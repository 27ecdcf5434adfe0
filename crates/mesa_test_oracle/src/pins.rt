// Pins that are held.
ghost use Rattle.std.specs.Prelude.{◌≡◌, ◌<◌, ◌^◌, ◌+◌, [], ◌∷◌, ◌++◌, filter, find, length, not, option_map, IfOk, OnOk, OnErr};
ghost use Rattle.std.specs.List.{list_any};
ghost use Rattle.mesa_model.specs.Pins.{count_at, counted_at, is_pin};
ghost use Rattle.mesa_test_oracle.specs.Pinned.{pin_seen};
ghost use Rattle.mesa_test_oracle.specs.declared.pins.PlainPin.{PlainPin as Held};

use mesa_list::{Items, TryCopy};
use mesa_oracle_tables::PlainStore;
use std::alloc::AllocError;

/// A session's pin of a version, with the tables and their contents at that version alone.
#[derive(Drop)]
pub(crate) struct PlainPin {
    pub(crate) session: u16,
    pub(crate) token: u32,
    pub(crate) version: u32,
    pub(crate) store: PlainStore,
}

// Adds a pin.
pub(crate) fn push_pin(pins: &mut Vec<PlainPin>, pin: PlainPin) -> Result<(), AllocError>
    ensures ok { OnOk result (pins.new.items ≡ pins.old.items ++ pin ∷ []) }
    ensures err { OnErr result (pins.new.items ≡ pins.old.items) }
{
    pins.push(pin)?;
    Ok(())
}

// Whether a pin is this session's, with this token.
fn is_of(pin: &PlainPin, session: u16, token: u32) -> bool
    ensures { result ≡ is_pin session token (pin_seen pin.now) }
{
    pin.session == session && pin.token == token
}

// Whether a session holds a pin with this token.
pub(crate) fn is_held(pins: &[PlainPin], session: u16, token: u32) -> bool
    ensures { result ≡ list_any (λ (p : Held). is_pin session token (pin_seen p)) pins.now }
{
    pins.iter().any(|pin| is_of(pin, session, token))
}

// The pin of a session with this token.
pub(crate) fn find_pin(pins: &[PlainPin], session: u16, token: u32) -> Option<&PlainPin>
    ensures { option_map (λ p. p.now) result ≡ find (λ (p : Held). is_pin session token (pin_seen p)) pins.now }
{
    pins.iter().find(|pin| is_of(pin, session, token))
}

// Lets a session's pin with this token go.
pub(crate) fn let_go(pins: &mut Vec<PlainPin>, session: u16, token: u32)
    ensures { pins.new.items ≡ filter (λ (p : Held). not (is_pin session token (pin_seen p))) pins.old.items }
{
    pins.retain(|pin| !is_of(pin, session, token));
}

// The counts of the sessions' pins with one more of this session.
pub(crate) fn counted(counts: &Items<u32>, session: u16) -> Result<Items<u32>, AllocError>
    requires { count_at counts.now session + 1 < 2 ^ 32 }
    ensures more { IfOk result (λ more. more ≡ counted_at counts.now session) }
    ensures there { IfOk result (λ more. session < length more) }
    ensures count { IfOk result (λ more. count_at more session ≡ count_at counts.now session + 1) }
{
    let mut more = counts.copy()?;
    'sessions: for _more in counts.len()..session as usize + 1 {
        more.push(0)?;
    }
    let count = more.at_mut(session as usize);
    *count += 1;
    Ok(more)
}
