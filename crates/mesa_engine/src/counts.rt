// How many pins each session was given.
ghost use Rattle.std.specs.Prelude.{◌≡◌, ◌+◌, ◌<◌, ◌≤◌, ◌^◌, ◌++◌, replicate, vec_capacity, vec_len, IfOk, OnOk, OnErr};
ghost use Rattle.mesa_model.specs.Pins.{count_at, counted_at};

use std::alloc::AllocError;

// Counts a pin more of a session: gives its count with it.
pub(crate) fn count(given: &mut Vec<u32>, session: u16) -> Result<u32, AllocError>
    requires { count_at given.old.items session + 1 < 2 ^ 32 }
    ensures counted { OnOk result (given.new.items ≡ counted_at given.old.items session) }
    ensures count { IfOk result (λ count. count ≡ count_at given.old.items session + 1) }
    ensures err { OnErr result (given.new.items ≡ given.old.items) }
{
    let place = session as usize;
    let missing = (place + 1).saturating_sub(given.len());
    given.reserve(missing)?;
    pad(given, missing);
    given[place] += 1;
    Ok(given[place])
}

// Adds counts of 0.
fn pad(given: &mut Vec<u32>, missing: usize)
    requires { vec_len given.old + missing ≤ vec_capacity given.old }
    ensures { given.new.items ≡ given.old.items ++ replicate missing 0 }
{
    for _ in 0..missing {
        given.push_reserved(0);
    }
}
