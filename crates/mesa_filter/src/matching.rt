// Whether keys meet terms.
ghost use Rattle.std.specs.Prelude.{◌≡◌, ◌≤◌, IsTrue, Some};
ghost use Rattle.mesa_fold.specs.mesa_key.Columns.{seen};
ghost use Rattle.mesa_fold.specs.mesa_key.Spelling.{is_spelling};
ghost use Rattle.mesa_filter.specs.Filter.{are_within, passes_as, value_meets};
ghost use Rattle.mesa_filter.specs.Walk.{all_meet, columns_named, column_meets as meets_column, column_reaches as reaches_column, interval_meets, may_meet_from, reaches as reaches_by};

use crate::{Comparison, Term};
use mesa_fold::{ColumnValue, KeyColumns, KeyType};
use std::cmp::Ordering;

// Whether each of the first columns of an encoded key meets its terms. No column behind them is looked at.
pub(crate) fn columns_meet(kinds: &[KeyType], terms: &[Term], named: usize, key: &[u8]) -> bool
    requires key { IsTrue (is_spelling kinds.now key.now) }
    requires named { columns_named terms.now ≤ named }
    ensures { result ≡ all_meet kinds.now 0 terms.now key.now }
{
    let mut columns = KeyColumns::of(kinds, key);
    for place in 0..named {
        let Some(column) = columns.take_next() else {
            return true;
        };
        if !column_meets(terms, place, column.value()) {
            return false;
        }
    }
    true
}

// How many columns from the first on hold each that a term names.
pub(crate) fn last_named(terms: &[Term]) -> usize
    ensures { result ≡ columns_named terms.now }
{
    let mut named = 0;
    for term in terms {
        named = named.max(term.column as usize + 1);
    }
    named
}

// Whether a value meets each term of its column.
fn column_meets(terms: &[Term], place: usize, value: ColumnValue) -> bool
    ensures { result ≡ meets_column place (seen value.entry) terms.now }
{
    terms
        .iter()
        .all(|term| term.column as usize != place || meets(value, term))
}

// Whether a column's value meets a term.
fn meets(value: ColumnValue, term: &Term) -> bool
    ensures { result ≡ value_meets (Some (seen value.entry)) term.now }
{
    term.literals
        .as_slice()
        .iter()
        .any(|literal| passes(term.comparison, value.compare(literal)))
}

// Whether a comparison allows this order of a value and a literal.
fn passes(comparison: Comparison, order: Ordering) -> bool
    ensures { result ≡ passes_as comparison order }
{
    match comparison {
        Comparison::Equal => order.is_eq(),
        Comparison::AtMost => order.is_le(),
        Comparison::AtLeast => order.is_ge(),
        Comparison::Less => order.is_lt(),
        Comparison::Greater => order.is_gt(),
    }
}

// Whether a key may meet the terms, by the walk over the columns that two short keys hold whole.
pub(crate) fn columns_may_meet(kinds: &[KeyType], terms: &[Term], low: &[u8], high: &[u8]) -> bool
    ensures { result ≡ may_meet_from kinds.now 0 terms.now low.now high.now }
{
    let mut lows = KeyColumns::of(kinds, low);
    let mut highs = KeyColumns::of(kinds, high);
    for place in 0..kinds.len() {
        let Some(low_column) = lows.take_next() else {
            return true;
        };
        let Some(high_column) = highs.take_next() else {
            return true;
        };
        let least = low_column.value();
        let greatest = high_column.value();
        if !least.is_same(greatest) {
            return column_reaches(terms, place, least, greatest);
        }
        if !column_meets(terms, place, least) {
            return false;
        }
    }
    true
}

// Whether each term of a column is met by some value of a closed interval.
fn column_reaches(terms: &[Term], place: usize, least: ColumnValue, greatest: ColumnValue) -> bool
    ensures { result ≡ reaches_column place (seen least.entry) (seen greatest.entry) terms.now }
{
    terms.iter().all(|term| term.column as usize != place || is_met_between(least, greatest, term))
}

// Whether some value of a closed interval meets a term.
fn is_met_between(least: ColumnValue, greatest: ColumnValue, term: &Term) -> bool
    ensures { result ≡ interval_meets (seen least.entry) (seen greatest.entry) term.now }
{
    term.literals.as_slice().iter().any(|literal| reaches(
        term.comparison,
        least.compare(literal),
        greatest.compare(literal),
    ))
}

// Whether some value of a closed interval compares so with a literal, by the orders of its ends and the literal.
fn reaches(comparison: Comparison, least: Ordering, greatest: Ordering) -> bool
    ensures { result ≡ reaches_by comparison least greatest }
{
    match comparison {
        Comparison::Equal => least.is_le() && greatest.is_ge(),
        Comparison::AtMost => least.is_le(),
        Comparison::AtLeast => greatest.is_ge(),
        Comparison::Less => least.is_lt(),
        Comparison::Greater => greatest.is_gt(),
    }
}
