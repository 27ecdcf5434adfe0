// How many bytes the values of rows take.
ghost use Rattle.std.specs.Prelude.{◌≡◌, IfOk};
ghost use Rattle.mesa_block.specs.Layout.{size_of, values_size, width_of, widths_in};

use mesa_columns::{Agg, Format, Schema};
use std::alloc::{AllocError, Global};

/// How many bytes a value takes in a block.
#[derive(Clone, Copy, Debug, PartialEq, Eq)]
pub enum Width {
    Eight,
    Sixteen,
}

impl Width {
    /// That of a column's values.
    pub fn of(format: Format, agg: Agg) -> Width
        ensures { result ≡ width_of format agg }
    {
        match (format, agg) {
            (Format::Two, Agg::Sum) => Width::Sixteen,
            _ => Width::Eight,
        }
    }

    /// In bytes.
    pub fn size(self) -> usize
        ensures { result ≡ size_of self }
    {
        match self {
            Width::Eight => 8,
            Width::Sixteen => 16,
        }
    }
}

// The widths of the value columns.
pub(crate) fn widths(
    alloc: Global,
    format: Format,
    schema: &Schema,
) -> Result<Vec<Width>, AllocError>
    ensures { IfOk result (λ v. v.items ≡ widths_in format schema.now.values) }
{
    let mut widths = Vec::with_capacity(alloc, schema.values().len())?;
    for column in schema.values() {
        widths.push(Width::of(format, column.agg))?;
    }
    Ok(widths)
}

/// How many bytes the values of a row take.
pub fn row_size(format: Format, schema: &Schema) -> usize
    ensures { result ≡ values_size (widths_in format schema.now.values) }
{
    let _sound = schema.keys();
    let mut size = 0;
    for column in schema.values() {
        size += Width::of(format, column.agg).size();
    }
    size
}
