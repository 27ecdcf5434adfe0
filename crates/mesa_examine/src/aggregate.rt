// A value column's aggregate while the rows of a file are read.
ghost use Rattle.std.specs.Prelude.{◌≡◌, ◌↔◌, ◌+ℤ◌, ℤ, FitsSigned, IfSome, IsTrue, int_lt};
ghost use Rattle.std.specs.Int.{int_max, int_min, w128};
ghost use Rattle.mesa_schema.specs.mesa_value.Agg.{combined};
ghost use Rattle.mesa_open_files.specs.mesa_delta_format.Summary.{noted};
ghost use Rattle.mesa_examine.specs.Aggregates.{carried};

use mesa_schema::{Agg, Amount};
use std::marker::Model;

/// An aggregate. A sum may pass 128 bits before all rows are in: 2^128 was carried so often, and this is left.
#[derive(Drop)]
pub(crate) struct Aggregate {
    left: Amount,
    carries: i64,
}

impl Model for Aggregate {
    ghost Value = { ℤ };

    ghost view = { λ a. carried a.left a.carries };
}

impl Aggregate {
    /// Of one value.
    pub fn of(agg: Agg, value: Amount) -> Self
        ensures { result ≡ noted agg value }
    {
        match agg {
            Agg::Replace => Self::plain(0),
            Agg::Sum | Agg::Min | Agg::Max => Self::plain(value),
        }
    }

    /// With a value more. None where 2^128 is carried more often than can be counted, which takes 2^63 rows.
    pub fn with(&self, agg: Agg, value: Amount) -> Option<Self>
        ensures { IfSome result (λ x. x ≡ noted agg (combined agg self.now value)) }
    {
        match agg {
            Agg::Sum => self.plus(value),
            Agg::Min => Some(self.lesser(value)),
            Agg::Max => Some(self.greater(value)),
            Agg::Replace => Some(Self::plain(0)),
        }
    }

    /// Whether it is this number.
    pub fn is(&self, number: Amount) -> bool
        ensures { IsTrue result ↔ (number ≡ self.now) }
    {
        self.left == number && self.carries == 0
    }

    // A number of 128 bits.
    fn plain(number: Amount) -> Self
        ensures { result ≡ number }
    {
        Aggregate {
            left: number,
            carries: 0,
        }
    }

    // The same again.
    fn same(&self) -> Self
        ensures { result ≡ self.now }
    {
        Aggregate {
            left: self.left,
            carries: self.carries,
        }
    }

    // The sum of it and a value.
    fn plus(&self, value: Amount) -> Option<Self>
        ensures { IfSome result (λ x. x ≡ self.now +ℤ value) }
    {
        let (left, more) = sum(self.left, value);
        let carries = self.carries.checked_add(more)?;
        Some(Aggregate { left, carries })
    }

    // The lesser of it and a value.
    fn lesser(&self, value: Amount) -> Self
        ensures { result ≡ int_min self.now value }
    {
        if self.is_above(value) {
            Self::plain(value)
        } else {
            self.same()
        }
    }

    // The greater of it and a value.
    fn greater(&self, value: Amount) -> Self
        ensures { result ≡ int_max self.now value }
    {
        if self.is_above(value) {
            self.same()
        } else {
            Self::plain(value)
        }
    }

    // Whether it is greater than a number.
    fn is_above(&self, number: Amount) -> bool
        ensures { result ≡ int_lt number self.now }
    {
        let above = self.left > number;
        if self.carries == 0 {
            above
        } else {
            self.carries > 0
        }
    }
}

// What is left of the sum of two numbers, and how often 2^128 is carried.
fn sum(one: Amount, other: Amount) -> (Amount, i64)
    ensures { carried result.0 result.1 ≡ one +ℤ other }
{
    match one.checked_add(other) {
        Some(sum) => (sum, 0),
        None => carry(one, other),
    }
}

// The same of two numbers whose sum passes 128 bits: they have one sign.
fn carry(one: Amount, other: Amount) -> (Amount, i64)
    requires { FitsSigned w128 (one +ℤ other) → ⊥ }
    ensures { carried result.0 result.1 ≡ one +ℤ other }
{
    if one < 0 {
        ((one - i128::MIN) + (other - i128::MIN), -1)
    } else {
        ((one + i128::MIN) + (other + i128::MIN), 1)
    }
}
