// Lists of columns.
ghost use Rattle.std.specs.Prelude.{◌≡◌, ◌≢◌, [], ◌∷◌, IfErr, IfOk, MatchOption, Ok, codes, length};
ghost use Rattle.mesa_list.specs.Checks.{each_of};
ghost use Rattle.mesa_list.specs.Split.{entries_of, split_at};
ghost use Rattle.mesa_script.specs.Records.{named};
ghost use Rattle.mesa_script.specs.Words.{key_words, value_words};
ghost use Rattle.mesa_parse.specs.Failures.{Tells};

use crate::failed::Failed;
use mesa_columns::Fields;
use mesa_key::KeyType;
use mesa_list::{Items, Parts};
use mesa_model::{KeyWords, ValueWords};
use mesa_script::Reason;
use mesa_value::Agg;
use std::alloc::{AllocError, Global};

// The two parts of an entry, where one space stands in it.
fn two_parts(entry: &[u8]) -> Option<(&[u8], &[u8])>
    ensures { MatchOption result (length (split_at 32 entry.now) ≢ 2) (λ parts. split_at 32 entry.now ≡ parts.0.now ∷ parts.1.now ∷ []) }
{
    let mut parts = Parts::of(b' ', entry);
    let name = parts.take_next()?;
    let word = parts.take_next()?;
    match parts.take_next() {
        Some(_) => None,
        None => Some((name, word)),
    }
}

// The type of key columns that a word stands for.
fn key_type(word: &[u8]) -> Option<KeyType>
    ensures { result ≡ named ((codes "int", KeyType.Int) ∷ (codes "text", KeyType.Text) ∷ []) word.now }
{
    if b"int".as_slice() == word {
        Some(KeyType::Int)
    } else if b"text".as_slice() == word {
        Some(KeyType::Text)
    } else {
        None
    }
}

// The aggregation that a word stands for.
fn aggregation(word: &[u8]) -> Option<Agg>
    ensures { result ≡ named ((codes "sum", Agg.Sum) ∷ (codes "min", Agg.Min) ∷ (codes "max", Agg.Max) ∷ (codes "replace", Agg.Replace) ∷ []) word.now }
{
    if b"sum".as_slice() == word {
        Some(Agg::Sum)
    } else if b"min".as_slice() == word {
        Some(Agg::Min)
    } else if b"max".as_slice() == word {
        Some(Agg::Max)
    } else if b"replace".as_slice() == word {
        Some(Agg::Replace)
    } else {
        None
    }
}

/// A key column: its name, and its type.
pub(crate) fn key_column(alloc: Global, entry: &[u8]) -> Result<KeyWords, Failed>
    ensures read { IfOk result (λ column. key_words entry.now ≡ Ok column) }
    ensures refused { IfErr result (λ e. Tells e (key_words entry.now)) }
{
    let Some((name, word)) = two_parts(entry) else {
        return Err(Failed::Bad(Reason::Word));
    };
    let Some(kind) = key_type(word) else {
        return Err(Failed::Bad(Reason::Word));
    };
    let name = Items::from_bytes(alloc, name)?;
    Ok(KeyWords { name, kind })
}

/// A value column: its name, and its aggregation.
pub(crate) fn value_column(alloc: Global, entry: &[u8]) -> Result<ValueWords, Failed>
    ensures read { IfOk result (λ column. value_words entry.now ≡ Ok column) }
    ensures refused { IfErr result (λ e. Tells e (value_words entry.now)) }
{
    let Some((name, word)) = two_parts(entry) else {
        return Err(Failed::Bad(Reason::Word));
    };
    let Some(agg) = aggregation(word) else {
        return Err(Failed::Bad(Reason::Word));
    };
    let name = Items::from_bytes(alloc, name)?;
    Ok(ValueWords { name, agg })
}

/// The key columns that a field lists.
pub(crate) fn key_columns(alloc: Global, field: &[u8]) -> Result<Items<KeyWords>, Failed>
    ensures read { IfOk result (λ columns. each_of key_words (entries_of field.now) ≡ Ok columns) }
    ensures refused { IfErr result (λ e. Tells e (each_of key_words (entries_of field.now))) }
{
    let mut columns = Items::new(alloc);
    let mut entries = Parts::entries(field);
    'entries: while let Some(entry) = entries.take_next() {
        columns.push(key_column(alloc, entry)?)?;
    }
    Ok(columns)
}

/// The value columns that a field lists.
pub(crate) fn value_columns(alloc: Global, field: &[u8]) -> Result<Items<ValueWords>, Failed>
    ensures read { IfOk result (λ columns. each_of value_words (entries_of field.now) ≡ Ok columns) }
    ensures refused { IfErr result (λ e. Tells e (each_of value_words (entries_of field.now))) }
{
    let mut columns = Items::new(alloc);
    let mut entries = Parts::entries(field);
    'entries: while let Some(entry) = entries.take_next() {
        columns.push(value_column(alloc, entry)?)?;
    }
    Ok(columns)
}

/// Copies of the names that a field lists.
pub(crate) fn names(alloc: Global, field: &[u8]) -> Result<Fields, AllocError>
    ensures { IfOk result (λ names. names ≡ entries_of field.now) }
{
    let mut names = Items::new(alloc);
    let mut entries = Parts::entries(field);
    'entries: while let Some(entry) = entries.take_next() {
        names.push(Items::from_bytes(alloc, entry)?)?;
    }
    Ok(names)
}
