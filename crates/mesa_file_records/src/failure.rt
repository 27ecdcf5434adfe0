// Why a batch isn't published.
use mesa_model::Refusal;
use std::alloc::AllocError;

/// Why a batch isn't published.
#[derive(Drop)]
pub enum Unpublished {
    Refused(Refusal),
    Memory,
}

impl From<AllocError> for Unpublished {
    ghost use Rattle.std.specs.Prelude.{◌≡◌};
    ghost use Rattle.mesa_file_records.specs.declared.failure.Unpublished.TheVariants.{Memory};

    ghost from_gives = { λ _ e. e ≡ Memory };

    fn from(_: AllocError) -> Self {
        Unpublished::Memory
    }
}
