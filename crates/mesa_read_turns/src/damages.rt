// Damage, as it can be told.
ghost use Rattle.std.specs.Prelude.{◌≡◌, ◌<◌, ◌^◌, length, IfErr};
ghost use Rattle.mesa_open_files.specs.Errors.{Differs, HasDiffered};
ghost use Rattle.mesa_read_turns.specs.Closing.{cause_if};
ghost use Rattle.mesa_pick_files.specs.mesa_key.Spelling.{AreBytes};
ghost use Rattle.mesa_engine.specs.mesa_history_spec.Output.{IsDamage, IsSeen};
ghost use Rattle.mesa_engine.specs.mesa_invariant_spec.Queries.{MayClose};

use mesa_delta::FileError;
use mesa_file::{Damage, Seen};
use mesa_script::Rendered;

// A number has 64 bits.
fn number(_number: u64)
    ensures { _number < 2 ^ 64 }
{}

// A digest has 32 bytes.
fn digest(_digest: [u8; 32])
    ensures length { length _digest ≡ 32 }
    ensures bytes { AreBytes _digest }
{}

fn seen_there(seen: Seen)
    ensures { IsSeen seen }
{
    match seen {
        Seen::Length(count) => number(count),
        Seen::Digest(bytes) => digest(bytes),
        Seen::Misfit(place) => number(place),
        Seen::Absent | Seen::Fits => {}
    }
}

/// A damage's numbers have their ranges: where what was found isn't what was wanted, it can be told.
pub fn can_be_told(damage: Damage)
    requires { Differs damage }
    ensures { IsDamage damage }
{
    number(damage.file.number());
    number(damage.place);
    seen_there(damage.want);
    seen_there(damage.found);
}

// What comes in the place of an answer can be told.
pub(crate) fn may_be_told(answered: &Result<Rendered, FileError>)
    requires { IfErr answered.now HasDiffered }
    ensures { MayClose (cause_if answered.now) }
{
    if let Err(FileError::Damaged(damage)) = answered {
        can_be_told(*damage);
    }
}
