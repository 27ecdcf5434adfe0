// Why bytes are no record.
use std::alloc::AllocError;

/// Why bytes are no record: the first fault from the left. Places count from 0; that of a field is its first byte's, which for a text or a key is the first byte of its length.
#[derive(Clone, Copy, Debug, PartialEq, Eq)]
pub enum RecordError {
    /// The bytes end within the field at this place.
    Truncated { at: u64 },
    /// A byte that has no meaning where it stands: of a record's kind, a change, a type, an aggregation or a flag.
    BadKind { at: u64 },
    /// A field that breaks a rule: of names, of text keys, of counts, or that tables and views rise.
    BadField { at: u64 },
    /// The record ends before this place.
    Trailing { at: u64 },
    Memory,
}

impl From<AllocError> for RecordError {
    ghost use Rattle.mesa_record_fields.specs.declared.error.RecordError.TheVariants.{Memory};
    ghost use Rattle.std.specs.Prelude.{◌≡◌};

    ghost from_gives = { λ _ e. e ≡ Memory };

    fn from(_: AllocError) -> Self {
        RecordError::Memory
    }
}
