// Reading filters.
ghost use Rattle.std.specs.Prelude.{◌≡◌, ◌≢◌, ◌≤◌, MatchOption, IfOk, IfErr, OnOk, None, Some, take_while, length, position, not, ◌<◌, IsTrue};
ghost use Rattle.mesa_fold.specs.mesa_columns.Columns.{kinds_of};
ghost use Rattle.mesa_fold.specs.mesa_columns.Names.{is_name_byte as name_byte};
ghost use Rattle.mesa_filter.specs.Filter.{are_within, operator_of, term_of, filter_of};

use crate::literals::{literals, values};
use crate::{Comparison, FilterError, Term};
use mesa_fold::{Schema, is_name_byte, place_of};
use mesa_list::{Items, Parts};
use std::alloc::{AllocError, Global};

/// How many terms a filter may have.
const MAX_TERMS: u16 = 64;

impl From<AllocError> for FilterError {
    ghost use Rattle.mesa_filter.specs.declared.terms.FilterError.TheVariants.{Memory};

    ghost from_gives = { λ _ e. e ≡ Memory };

    fn from(_: AllocError) -> Self {
        FilterError::Memory
    }
}

// The terms of a filter over the key columns of a schema.
pub(crate) fn terms(alloc: Global, schema: &Schema, text: &[u8]) -> Result<Items<Term>, FilterError>
    ensures read { IfOk result (λ terms. filter_of schema.now text.now ≡ Ok terms) }
    ensures within { IfOk result (λ terms. IsTrue (are_within (kinds_of schema.now) terms)) }
    ensures refused { IfErr result (λ e. e ≢ FilterError.Memory → filter_of schema.now text.now ≡ Err e) }
{
    let mut terms = Items::new(alloc);
    if text.is_empty() {
        return Ok(terms);
    }
    let mut number = 1;
    let mut parts = Parts::of(b'&', text);
    'ands: while let Some(part) = parts.take_next() {
        let next = term(alloc, schema, number, part)?;
        terms.push(next)?;
        number += 1;
    }
    Ok(terms)
}

// Term number n of a filter.
fn term(alloc: Global, schema: &Schema, number: u16, bytes: &[u8]) -> Result<Term, FilterError>
    ensures read { IfOk result (λ term. term_of schema.now number bytes.now ≡ Ok term) }
    ensures within { IfOk result (λ term. term.column < length (kinds_of schema.now)) }
    ensures counted { OnOk result (number ≤ 64) }
    ensures refused { IfErr result (λ e. e ≢ FilterError.Memory → term_of schema.now number bytes.now ≡ Err e) }
{
    if number > MAX_TERMS {
        return Err(FilterError::BadForm { term: number });
    }
    let name = front_name(bytes);
    let Some((comparison, rest)) = operator(&bytes[name.len()..]) else {
        return Err(FilterError::BadForm { term: number });
    };
    if name.is_empty() {
        return Err(FilterError::BadForm { term: number });
    }
    let Some(texts) = literals(alloc, comparison, rest)? else {
        return Err(FilterError::BadForm { term: number });
    };
    let columns = schema.keys();
    let Some(place) = place_of(name, columns) else {
        return Err(FilterError::NoColumn { term: number });
    };
    let column = &columns[place];
    let Some(literals) = values(alloc, column.kind, texts.as_slice())? else {
        return Err(FilterError::BadLiteral { term: number });
    };
    Ok(Term {
        column: place as u16,
        comparison,
        literals,
    })
}

// The bytes at the front that may stand in a name.
fn front_name(bytes: &[u8]) -> &[u8]
    ensures name { result.now ≡ take_while name_byte bytes.now }
    ensures within { length result.now ≤ length bytes.now }
{
    match name_end(bytes) {
        Some(end) => &bytes[..end],
        None => bytes,
    }
}

// The place of the first byte that may not stand in a name.
fn name_end(bytes: &[u8]) -> Option<usize>
    ensures { result ≡ position (λ b. not (name_byte b)) bytes.now }
{
    bytes.iter().position(|b| !is_name_byte(*b))
}

// The longest operator at the front, and what follows it.
fn operator(bytes: &[u8]) -> Option<(Comparison, &[u8])>
    ensures { MatchOption result (operator_of bytes.now ≡ None) (λ found. operator_of bytes.now ≡ Some (found.0, found.1.now)) }
{
    match bytes {
        [b'<', b'=', rest @ ..] => Some((Comparison::AtMost, rest)),
        [b'>', b'=', rest @ ..] => Some((Comparison::AtLeast, rest)),
        [b'=', rest @ ..] => Some((Comparison::Equal, rest)),
        [b'<', rest @ ..] => Some((Comparison::Less, rest)),
        [b'>', rest @ ..] => Some((Comparison::Greater, rest)),
        _ => None,
    }
}
