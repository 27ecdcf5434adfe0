// Why a row is not put into its group.
use std::alloc::AllocError;

/// Why a row is not put into its group.
#[derive(Clone, Copy, Debug, PartialEq, Eq)]
pub enum GroupError {
    /// A sum of the group and the row would leave its type.
    Sum,
    Memory,
}

impl From<AllocError> for GroupError {
    ghost use Rattle.std.specs.Prelude.{◌≡◌};
    ghost use Rattle.mesa_answer.specs.declared.error.GroupError.TheVariants.{Memory};

    ghost from_gives = { λ _ e. e ≡ Memory };

    fn from(_: AllocError) -> Self {
        GroupError::Memory
    }
}
