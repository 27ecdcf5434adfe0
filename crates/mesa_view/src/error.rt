// Why the rows of a file are not put into groups.
ghost use Rattle.std.specs.Prelude.{◌≡◌};
ghost use Rattle.mesa_delta.specs.declared.error.FileError.TheVariants as file_error;
ghost use Rattle.mesa_view.specs.Gathering.{gather_error};
ghost use Rattle.mesa_view.specs.declared.error.GatherError.TheVariants as gather;

use mesa_answer::GroupError;
use mesa_delta::FileError;
use std::alloc::AllocError;

/// Why the rows of a file are not put into groups.
#[derive(Clone, Copy, Debug, PartialEq, Eq)]
pub enum GatherError {
    /// A sum of a row's group would leave its type. The key of that group is at hand.
    Sum,
    /// The file isn't read, or there is no memory.
    File(FileError),
}

impl From<FileError> for GatherError {
    ghost from_gives = { λ f e. e ≡ gather.File f };

    fn from(error: FileError) -> Self {
        GatherError::File(error)
    }
}

impl From<AllocError> for GatherError {
    ghost from_gives = { λ _ e. e ≡ gather.File file_error.Memory };

    fn from(_: AllocError) -> Self {
        GatherError::File(FileError::Memory)
    }
}

impl From<GroupError> for GatherError {
    ghost from_gives = { λ g e. e ≡ gather_error g };

    fn from(error: GroupError) -> Self {
        match error {
            GroupError::Sum => GatherError::Sum,
            GroupError::Memory => GatherError::File(FileError::Memory),
        }
    }
}
