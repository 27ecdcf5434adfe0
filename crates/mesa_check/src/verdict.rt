// What a check answers.
use mesa_schema::{KeyBytes, Name};

/// What a check of a store answers: that it is sound, or its first fault.
#[derive(Drop)]
pub enum Verdict {
    Sound,
    /// A fault of a table in a range of versions, with the key that shows it, if a single one does.
    Unsound {
        table: Name,
        from: u32,
        to: u32,
        key: Option<KeyBytes>,
    },
}
