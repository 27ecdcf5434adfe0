// A page as it is printed.
use mesa_model::Words;

/// A page as it is printed: its number of rows, whether further rows follow it, and its lines.
#[derive(Drop)]
pub struct Rendered {
    pub rows: u32,
    pub more: bool,
    /// A line for each row, and where further rows follow one with the resume key.
    pub body: Words,
}
