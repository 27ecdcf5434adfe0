//! Values of columns, and the four aggregations that put them together.
#![tactic(auto)]

ghost use Rattle.std.specs.Prelude.{◌≡◌, ◌↔◌, IsTrue, ℤ};
ghost use Rattle.mesa_value.specs.declared.Agg.{Agg as Aggs};
ghost use Rattle.mesa_value.specs.Agg.{Combines, IsDefault, IsOrderless, combined, is_sum};

/// A value of a column.
pub type Amount = i128;

/// The values of a row, one for each value column.
pub type Values = Items<Amount>;

/// How the values of a key are put together, in the order of their versions.
#[derive(Clone, Copy, Debug, PartialEq, Eq)]
pub enum Agg {
    /// The values added up.
    Sum,
    /// The least of them.
    Min,
    /// The greatest of them.
    Max,
    /// The newest of them.
    Replace,
}

impl Agg {
    /// Whether it adds values up.
    pub fn is_sum(self) -> bool
        ensures { result ≡ is_sum self }
    {
        matches!(self, Agg::Sum)
    }
}

/// The value of an older and a newer one.
pub fn combine(agg: Agg, old: Amount, new: Amount) -> Amount
    requires { Combines agg old new }
    ensures { result ≡ combined agg old new }
{
    match agg {
        Agg::Sum => old + new,
        Agg::Min => old.min(new),
        Agg::Max => old.max(new),
        Agg::Replace => new,
    }
}

/// Whether the two values have one together: a sum may leave its type.
pub fn combines(agg: Agg, old: Amount, new: Amount) -> bool
    ensures { IsTrue result ↔ Combines agg old new }
{
    match agg {
        Agg::Sum => old.checked_add(new).is_some(),
        _ => true,
    }
}

/// It doesn't matter which two of three values in a row are combined first.
pub fn associates()
    ensures { (agg : Aggs) (a b c : ℤ) → combined agg (combined agg a b) c ≡ combined agg a (combined agg b c) }
{}

/// The values of all but one aggregation may come in any order.
pub fn commutes()
    ensures { (agg : Aggs) (a b : ℤ) → IsOrderless agg → combined agg a b ≡ combined agg b a }
{}

/// A default stays, however often it is combined with itself.
pub fn keeps_defaults()
    ensures { (agg : Aggs) (value : ℤ) → IsDefault agg value → combined agg value value ≡ value }
{}

pub use mesa_list::{Items, TryCopy, place_of_byte, put_bytes};
