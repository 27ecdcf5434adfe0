// Queries.
ghost use Rattle.std.specs.Prelude.{◌≡◌, ◌≢◌, IsTrue, IfOk, IfErr, OnOk, IsOk, Ok, Err, None, Some, MatchOption};
ghost use Rattle.mesa_fold.specs.mesa_columns.Columns.{chosen};
ghost use Rattle.mesa_filter.specs.Asked.{asked_of};
ghost use Rattle.mesa_filter.specs.Resume.{resume_of};
ghost use Rattle.std.specs.List.{AllByRecursion};
ghost use Rattle.mesa_filter.specs.declared.terms.Term.{Term as AnyTerm};
ghost use Rattle.mesa_filter.specs.Among.{Holds, query_among};
ghost use Rattle.mesa_filter.specs.Query.{IsQueryOf, are_places, built, group_kinds as kinds_grouped, query_of};

use crate::among::places_among;
use crate::asking::{Asking, what_is_asked};
use crate::resuming::{prefix, resume_key};
use crate::{Filter, QueryError, QueryWords};
use mesa_fold::{KeyBytes, KeyType, Name, Schema, Words};
use mesa_list::{Items, TryCopy};
use std::alloc::{AllocError, Global};
use std::marker::Model;

/// A query of a table or a view that passed its checks: its filter, its group and value columns by their places in the relation's schema, and where its page begins and ends. It also knows what printing needs: the types of its group columns, and what stands before a group key in its resume keys.
pub struct Query {
    asking: Asking,
    group_kinds: Items<KeyType>,
    version: u32,
    limit: u32,
    resume: Option<KeyBytes>,
    prefix: Words,
}

impl Model for Query {
    ghost use Rattle.std.specs.Prelude.{◌≡◌};
    ghost use Rattle.mesa_fold.specs.mesa_columns.Columns.{chosen};
    ghost use Rattle.mesa_filter.specs.Query.{BuiltQuery};

    ghost Value = { BuiltQuery };

    ghost view = { λ q. record { kinds = q.asking.filter.kinds; asked = record { columns = q.asking.columns; values = q.asking.values; terms = q.asking.filter.terms }; version = q.version; limit = q.limit; resume = q.resume; prefix = q.prefix } };

    ghost invariant = { λ q. q.group_kinds ≡ chosen q.asking.columns q.asking.filter.kinds };
}

// Each exit calls this, in place of letting go of each part itself.
impl Drop for Query {
    fn drop(self) {
        let Query {
            asking: _,
            group_kinds: _,
            version: _,
            limit: _,
            resume: _,
            prefix: _,
        } = self;
    }
}

impl Query {
    /// Whether the words ask a query of a relation of the schema. Their resume key isn't looked at, since it is one of a version.
    pub fn check(alloc: Global, schema: &Schema, words: &QueryWords) -> Result<(), QueryError>
        ensures passes { OnOk result (IsOk (asked_of schema.now words.now)) }
        ensures refused { IfErr result (λ e. e ≢ QueryError.Memory → asked_of schema.now words.now ≡ Err e) }
        ensures resume_unseen { IfErr result (λ e. e ≢ QueryError.BadResume) }
    {
        let _asking = what_is_asked(alloc, schema, words)?;
        Ok(())
    }

    /// The query that the words ask of a relation of the schema, at a version and at an epoch of its table.
    pub fn build(
        alloc: Global,
        schema: &Schema,
        relation: &Name,
        version: u32,
        epoch: u32,
        words: &QueryWords,
    ) -> Result<Self, QueryError>
        ensures asked { IfOk result (λ q. asked_of schema.now words.now ≡ Ok q.asked) }
        ensures resume { IfOk result (λ q. resume_of schema.now relation.now version epoch q.asked.columns words.now.resume ≡ Ok q.resume) }
        ensures built { IfOk result (λ q. q ≡ built schema.now relation.now version epoch words.now q.asked q.resume) }
        ensures sound { IfOk result (λ q. IsQueryOf schema.now q) }
        ensures refused { IfErr result (λ e. e ≢ QueryError.Memory → query_of schema.now relation.now version epoch words.now ≡ Err e) }
    {
        let asking = what_is_asked(alloc, schema, words)?;
        let prefix = prefix(
            alloc,
            schema,
            relation,
            version,
            epoch,
            asking.columns.as_slice(),
        )?;
        let group_kinds = kinds_at(alloc, asking.filter.kinds(), asking.columns.as_slice())?;
        let resume = resume_key(
            alloc,
            group_kinds.as_slice(),
            prefix.as_slice(),
            words.resume.as_slice(),
        )?;
        Ok(Query {
            asking,
            group_kinds,
            version,
            limit: words.limit,
            resume,
            prefix,
        })
    }

    /// The places of the group columns among the relation's key columns, in the order of the group key.
    pub fn columns(&self) -> &[u16]
        ensures { result.now ≡ self.now.asked.columns }
    {
        self.asking.columns.as_slice()
    }

    /// The types of the group columns.
    pub fn group_kinds(&self) -> &[KeyType]
        ensures { result.now ≡ kinds_grouped self.now }
    {
        self.group_kinds.as_slice()
    }

    /// The places of the value columns that are asked, in their order.
    pub fn values(&self) -> &[u16]
        ensures { result.now ≡ self.now.asked.values }
    {
        self.asking.values.as_slice()
    }

    /// The filter of the relation's rows.
    pub fn filter(&self) -> &Filter
        ensures kinds { result.now.kinds ≡ self.now.kinds }
        ensures terms { result.now.terms ≡ self.now.asked.terms }
    {
        &self.asking.filter
    }

    /// The version that answers.
    pub fn version(&self) -> u32
        ensures { result ≡ self.now.version }
    {
        self.version
    }

    /// How many rows a page has at most.
    pub fn limit(&self) -> u32
        ensures { result ≡ self.now.limit }
    {
        self.limit
    }

    /// The group key after which the page begins; none for the first page.
    pub fn resume(&self) -> Option<&[u8]>
        ensures { MatchOption result (self.now.resume ≡ None) (λ key. self.now.resume ≡ Some key.now) }
    {
        match &self.resume {
            Some(key) => Some(key.as_slice()),
            None => None,
        }
    }

    /// What stands before the hexadecimal of a group key in the query's resume keys.
    pub fn prefix(&self) -> &[u8]
        ensures { result.now ≡ self.now.prefix }
    {
        self.prefix.as_slice()
    }
}

impl Query {
    /// The same query of a relation whose key columns and value columns are those at these places among the ones that it is asked of now. Its version and its page stay, and so do its resume keys.
    pub fn among(&self, keys: &[u16], values: &[u16]) -> Result<Query, AllocError>
        requires keys { IsTrue (are_places self.now.kinds keys.now) }
        requires columns { AllByRecursion (Holds keys.now) self.now.asked.columns }
        requires terms { AllByRecursion (λ (t : AnyTerm). Holds keys.now t.column) self.now.asked.terms }
        ensures { IfOk result (λ q. q ≡ query_among keys.now values.now self.now) }
    {
        // No relation has that many columns.
        if keys.len() > u16::MAX as usize || values.len() > u16::MAX as usize {
            return Err(AllocError);
        }
        let alloc = self.group_kinds.allocator();
        let asking = Asking {
            columns: places_among(alloc, keys, self.columns())?,
            values: places_among(alloc, values, self.values())?,
            filter: self.asking.filter.among(keys)?,
        };
        let resume = match &self.resume {
            None => None,
            Some(key) => Some(key.copy()?),
        };
        Ok(Query {
            asking,
            group_kinds: self.group_kinds.copy()?,
            version: self.version,
            limit: self.limit,
            resume,
            prefix: self.prefix.copy()?,
        })
    }
}

impl TryCopy for Query {
    fn copy(&self) -> Result<Self, AllocError> {
        let resume = match &self.resume {
            None => None,
            Some(key) => Some(key.copy()?),
        };
        Ok(Query {
            asking: self.asking.copy()?,
            group_kinds: self.group_kinds.copy()?,
            version: self.version,
            limit: self.limit,
            resume,
            prefix: self.prefix.copy()?,
        })
    }
}

// The types of the columns at these places.
pub(crate) fn kinds_at(
    alloc: Global,
    kinds: &[KeyType],
    places: &[u16],
) -> Result<Items<KeyType>, AllocError>
    ensures { IfOk result (λ found. found ≡ chosen places.now kinds.now) }
{
    let mut found = Items::new(alloc);
    for place in places {
        if let Some(kind) = kinds.get(*place as usize) {
            found.push(*kind)?;
        }
    }
    Ok(found)
}
