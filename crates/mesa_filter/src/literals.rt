// The literals of a term.
ghost use Rattle.std.specs.Prelude.{◌≡◌, ◌<◌, ◌≤◌, length, IfOk, IfSome, MatchOption, option_map, cond, nat_lt, None, Some, [], ◌∷◌};
ghost use Rattle.mesa_fold.specs.mesa_columns.Numbers.{key_value_of};
ghost use Rattle.mesa_filter.specs.Hex.{hex_value as digit_value, with_byte};
ghost use Rattle.mesa_filter.specs.Filter.{each_some, literal_parts, unescaped};
ghost use Rattle.mesa_list.specs.Split.{split_at};

use crate::Comparison;
use mesa_fold::{KeyType, KeyValue, Words, key_value};
use mesa_list::{Items, Parts};
use std::alloc::{AllocError, Global};

/// How many literals a term may have.
const MAX_LITERALS: usize = 64;

// The bytes of the literals behind an operator, where they are well formed and not too many.
pub(crate) fn literals(
    alloc: Global,
    comparison: Comparison,
    bytes: &[u8],
) -> Result<Option<Items<Words>>, AllocError>
    ensures { IfOk result (λ found. found ≡ cond (nat_lt 64 (length (literal_parts comparison bytes.now))) None (each_some unescaped (literal_parts comparison bytes.now))) }
{
    match comparison {
        Comparison::Equal => alternatives(alloc, bytes),
        _ => one_literal(alloc, bytes),
    }
}

// The bytes of one literal.
fn one_literal(alloc: Global, bytes: &[u8]) -> Result<Option<Items<Words>>, AllocError>
    ensures { IfOk result (λ found. found ≡ each_some unescaped (bytes.now ∷ [])) }
{
    let mut found = Items::new(alloc);
    let Some(text) = literal(alloc, bytes)? else {
        return Ok(None);
    };
    found.push(text)?;
    Ok(Some(found))
}

// The bytes of the literals between bars.
fn alternatives(alloc: Global, bytes: &[u8]) -> Result<Option<Items<Words>>, AllocError>
    ensures { IfOk result (λ found. found ≡ cond (nat_lt 64 (length (split_at 124 bytes.now))) None (each_some unescaped (split_at 124 bytes.now))) }
{
    let mut found = Items::new(alloc);
    let mut parts = Parts::of(b'|', bytes);
    'bars: while let Some(part) = parts.take_next() {
        if found.len() == MAX_LITERALS {
            return Ok(None);
        }
        let Some(text) = literal(alloc, part)? else {
            return Ok(None);
        };
        found.push(text)?;
    }
    Ok(Some(found))
}

// The bytes of a literal, without its escapes.
fn literal(alloc: Global, bytes: &[u8]) -> Result<Option<Words>, AllocError>
    ensures { IfOk result (λ text. text ≡ unescaped bytes.now) }
{
    let mut text = Items::new(alloc);
    let mut rest = bytes;
    'bytes: while let Some((first, after)) = rest.split_first() {
        let Some((byte, after)) = first_byte(*first, after) else {
            return Ok(None);
        };
        text.push(byte)?;
        rest = after;
    }
    Ok(Some(text))
}

// The first byte of a literal, itself or escaped, and what follows it.
fn first_byte(first: u8, rest: &[u8]) -> Option<(u8, &[u8])>
    ensures read { MatchOption result (unescaped (first ∷ rest.now) ≡ None) (λ found. unescaped (first ∷ rest.now) ≡ option_map (λ text. found.0 ∷ text) (unescaped found.1.now)) }
    ensures shorter { IfSome result (λ found. length found.1.now ≤ length rest.now) }
{
    if first != b'%' {
        return Some((first, rest));
    }
    match rest {
        [high, low, rest @ ..] => Some((byte_of(*high, *low)?, rest)),
        _ => None,
    }
}

// The byte of two hexadecimal digits.
fn byte_of(high: u8, low: u8) -> Option<u8>
    ensures { MatchOption result (with_byte (digit_value high) (digit_value low) (Some []) ≡ None) (λ byte. with_byte (digit_value high) (digit_value low) (Some []) ≡ Some (byte ∷ [])) }
{
    Some(16 * hex_value(high)? + hex_value(low)?)
}

// The value of a lower case hexadecimal digit.
pub(crate) fn hex_value(digit: u8) -> Option<u8>
    ensures value { result ≡ digit_value digit }
    ensures small { IfSome result (λ value. value < 16) }
{
    match digit {
        b'0'..=b'9' => Some(digit - b'0'),
        b'a'..=b'f' => Some(digit - 87),
        _ => None,
    }
}

// The values of a key column that texts spell.
pub(crate) fn values(
    alloc: Global,
    kind: KeyType,
    texts: &[Words],
) -> Result<Option<Items<KeyValue>>, AllocError>
    ensures { IfOk result (λ found. found ≡ each_some (key_value_of kind) texts.now) }
{
    let mut found = Items::new(alloc);
    for text in texts {
        let Some(value) = key_value(alloc, kind, text.as_slice())? else {
            return Ok(None);
        };
        found.push(value)?;
    }
    Ok(Some(found))
}
