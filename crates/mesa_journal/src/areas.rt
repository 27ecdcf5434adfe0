ghost use Rattle.std.specs.Prelude.{◌≡◌};
ghost use Rattle.mesa_journal.specs.Areas.{is_checkpoint, number_in, other_of};

use mesa_disk::Area;

/// The other of the two areas.
pub fn other_area(area: Area) -> Area
    ensures { result ≡ other_of area }
{
    match area {
        Area::Zero => Area::One,
        Area::One => Area::Zero,
    }
}

/// The number of the checkpoint that a body is; 0 for another body.
#[tactic(auto, using(crate::proofs::Scanning::number_short, crate::proofs::Scanning::number_other, crate::proofs::Scanning::number_long))]
pub fn number_in(body: &[u8]) -> u32
    ensures { result ≡ number_in body.now }
{
    let [kind, a, b, c, d, ..] = body else {
        return 0;
    };
    if !is_checkpoint(*kind) {
        return 0;
    }
    u32::from_be_bytes([*a, *b, *c, *d])
}

// Whether a record of this kind is a checkpoint.
fn is_checkpoint(kind: u8) -> bool
    ensures { result ≡ is_checkpoint kind }
{
    kind == 8 || kind == 11 || kind == 13 || kind == 15
}
