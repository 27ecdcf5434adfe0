// Filters.
ghost use Rattle.std.specs.Prelude.{◌≡◌, ◌≢◌, ◌<◌, ◌^◌, IfOk, IfErr, IsTrue, length, map, take};
ghost use Rattle.std.specs.List.{AllByRecursion};
ghost use Rattle.mesa_fold.specs.mesa_key.Spelling.{is_spelling, key_of};
ghost use Rattle.mesa_fold.specs.mesa_columns.Columns.{chosen, kinds_of};
ghost use Rattle.mesa_filter.specs.declared.terms.Term.{Term as AnyTerm};
ghost use Rattle.mesa_filter.specs.Among.{Holds, term_among};
ghost use Rattle.mesa_filter.specs.Filter.{are_within, filter_of, meets};
ghost use Rattle.std.specs.Bool.{OnFalse};
ghost use Rattle.mesa_filter.specs.Walk.{may_meet_from};
ghost use Rattle.mesa_filter.specs.Pruning.{NoneMeets};
ghost use Rattle.mesa_filter.specs.Query.{are_places};

use crate::among::terms_among;
use crate::matching::{columns_may_meet, columns_meet, last_named};
use crate::parsing::terms;
use crate::query::kinds_at;
use crate::{FilterError, Term};
use mesa_fold::{KeyType, Schema};
use mesa_list::{Items, TryCopy};
use std::alloc::{AllocError, Global};
use std::marker::Model;

/// A filter of rows by their keys: a key meets it where it meets each of its terms. It knows the types of the key columns, so that it can look at encoded keys.
#[derive(Drop)]
pub struct Filter {
    kinds: Items<KeyType>,
    terms: Items<Term>,
    // How many columns from the first on hold each that a term names.
    named: usize,
}

impl Model for Filter {
    ghost use Rattle.mesa_filter.specs.Filter.{KeyFilter, are_within};
    ghost use Rattle.mesa_filter.specs.Walk.{columns_named};
    ghost use Rattle.std.specs.Prelude.{◌≡◌, IsTrue};

    ghost Value = { KeyFilter };

    ghost view = { λ f. record { kinds = f.kinds; terms = f.terms } };

    ghost invariant = { λ f. IsTrue (are_within f.kinds f.terms) × (f.named ≡ columns_named f.terms) };
}

impl Filter {
    /// The filter that a text spells, over the key columns of a schema: empty, or terms `name operator literal` separated by `&`, of which there are at most 64. In a literal `%` and two lower case hexadecimal digits stand for one byte; behind `=` there may be up to 64 literals, separated by `|`.
    pub fn parse(alloc: Global, schema: &Schema, text: &[u8]) -> Result<Self, FilterError>
        ensures kinds { IfOk result (λ f. f.kinds ≡ kinds_of schema.now) }
        ensures read { IfOk result (λ f. filter_of schema.now text.now ≡ Ok f.terms) }
        ensures refused { IfErr result (λ e. e ≢ FilterError.Memory → filter_of schema.now text.now ≡ Err e) }
    {
        let terms = terms(alloc, schema, text)?;
        let kinds = key_kinds(alloc, schema)?;
        let named = last_named(terms.as_slice());
        Ok(Filter {
            kinds,
            terms,
            named,
        })
    }

    /// The types of the key columns that the filter was read for.
    pub(crate) fn kinds(&self) -> &[KeyType]
        ensures { result.now ≡ self.now.kinds }
    {
        self.kinds.as_slice()
    }

    /// The terms, all of which a key has to meet.
    pub fn terms(&self) -> &[Term]
        ensures terms { result.now ≡ self.now.terms }
        ensures within { IsTrue (are_within self.now.kinds self.now.terms) }
    {
        self.terms.as_slice()
    }

    /// The same filter of the keys that have the columns at these places.
    pub(crate) fn among(&self, keys: &[u16]) -> Result<Self, AllocError>
        requires keys { IsTrue (are_places self.now.kinds keys.now) }
        requires few { length keys.now < 2 ^ 16 }
        requires terms { AllByRecursion (λ (t : AnyTerm). Holds keys.now t.column) self.now.terms }
        ensures kinds { IfOk result (λ f. f.kinds ≡ chosen keys.now self.now.kinds) }
        ensures terms { IfOk result (λ f. f.terms ≡ map (term_among keys.now) self.now.terms) }
    {
        let alloc = self.kinds.allocator();
        let kinds = kinds_at(alloc, self.kinds(), keys)?;
        let terms = terms_among(alloc, keys, self.terms.as_slice())?;
        let named = last_named(terms.as_slice());
        Ok(Filter {
            kinds,
            terms,
            named,
        })
    }

    /// Whether a key meets the filter: an encoded key of the columns that the filter was read for. Nothing of it is copied, and no column behind the last one that a term names is looked at.
    pub fn matches(&self, key: &[u8]) -> bool
        requires { IsTrue (is_spelling self.now.kinds key.now) }
        ensures { result ≡ meets (key_of self.now.kinds key.now) self.now.terms }
    {
        columns_meet(
            self.kinds.as_slice(),
            self.terms.as_slice(),
            self.named,
            key,
        )
    }

    /// Whether a key may meet the filter that has the first `columns` key columns, where the short key of these lies from `low` to `high`, both included.
    pub fn may_meet(&self, columns: u8, low: &[u8; 16], high: &[u8; 16]) -> bool
        ensures walk { result ≡ may_meet_from (take columns self.now.kinds) 0 self.now.terms low.now high.now }
        ensures no_key_lost { OnFalse result (NoneMeets self.now.kinds columns self.now.terms low.now high.now) }
    {
        let count = self.kinds.len().min(columns as usize);
        columns_may_meet(
            &self.kinds.as_slice()[..count],
            self.terms.as_slice(),
            low,
            high,
        )
    }
}

impl TryCopy for Filter {
    fn copy(&self) -> Result<Self, AllocError> {
        Ok(Filter {
            kinds: self.kinds.copy()?,
            terms: self.terms.copy()?,
            named: self.named,
        })
    }
}

// The types of the key columns.
pub(crate) fn key_kinds(alloc: Global, schema: &Schema) -> Result<Items<KeyType>, AllocError>
    ensures { IfOk result (λ kinds. kinds ≡ kinds_of schema.now) }
{
    let mut kinds = Items::new(alloc);
    for column in schema.keys() {
        kinds.push(column.kind)?;
    }
    Ok(kinds)
}
