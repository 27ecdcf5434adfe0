// The first groups of rows, found by a guess where they were met before.
ghost use Rattle.std.specs.Prelude.{◌≡◌, ◌<◌, ◌≤◌, ◌^◌, ◌-◌, [], IsTrue, List, ℤ, Some, None, IfOk, IfSome, MatchOption, length, take, is_some, false, OnOk, OnErr, IfErr, slice_get};
ghost use Rattle.std.specs.Map.{lookup};
ghost use Rattle.mesa_model.specs.mesa_fold.Folded.{AllCombine, row_combined};
ghost use Rattle.mesa_model.specs.mesa_fold.Laws.{AreFull};
ghost use Rattle.mesa_model.specs.mesa_fold.Put.{put_row, put_rows};
ghost use Rattle.mesa_answer.specs.Held.{ArePlaced, IsNotBehind, StandsAt, is_key, rows_in, value_at, values_in, with_values};

use crate::error::GroupError;
use crate::guesses::Guesses;
use mesa_batch::{combine_into, combines_all};
use mesa_list::Items;
use mesa_schema::{Row, RowList};
use mesa_value::{Agg, Amount, Values};
use std::alloc::{AllocError, Global};
use std::collections::BTreeMap;
use std::marker::Model;
use std::mem::replace;

/// The first groups of rows, as rows in the order of their keys.
#[derive(Drop)]
pub(crate) struct Held {
    // The groups by place: in the order in which they came, but one that comes when there are as many as are wanted has the place of that which falls off. So places and groups stay one to one.
    groups: Vec<Row>,
    // The place of each key: order, and certainty.
    places: BTreeMap<Vec<u8>, usize>,
    // Most rows fall into a group that was met before. A guess finds it without the map.
    guesses: Guesses,
}

impl Model for Held {
    ghost use Rattle.std.specs.Prelude.{List};
    ghost use Rattle.mesa_model.specs.mesa_columns.declared.rows.Row.{Row};
    ghost use Rattle.mesa_answer.specs.Held.{ArePlaced, rows_in};

    ghost Value = { List Row };

    ghost view = { λ h. rows_in h.groups.items h.places.entries };

    ghost invariant = { λ h. ArePlaced h.groups.items h.places.entries };
}

impl Held {
    /// No groups yet. It takes no memory.
    pub(crate) fn new(alloc: Global) -> Self
        ensures { result ≡ [] }
    {
        Held {
            groups: Vec::new(alloc),
            places: BTreeMap::new(alloc),
            guesses: Guesses::new(alloc),
        }
    }

    /// Whether there is a group of this key.
    pub(crate) fn holds(&self, key: &[u8]) -> bool
        ensures { result ≡ is_some (value_at key.now self.now) }
    {
        self.places.contains_key(key)
    }

    /// Puts a row among the first groups. One that falls behind them never comes back: later rows only bring the last of them down.
    pub(crate) fn put(
        &mut self,
        aggs: &[Agg],
        most: usize,
        key: &[u8],
        values: &[Amount],
    ) -> Result<(), GroupError>
        requires short { length self.old ≤ most }
        requires full { AreFull aggs.now self.old }
        requires row_full { length values.now ≡ length aggs.now }
        ensures put { OnOk result (self.new ≡ take most (put_row aggs.now (record { key = key.now; values = values.now }) self.old)) }
        ensures err { OnErr result (self.new ≡ self.old) }
        ensures cause { IfErr result (λ e. e ≡ GroupError.Sum → (old : List ℤ) × (value_at key.now self.old ≡ Some old) × (AllCombine aggs.now old values.now → ⊥)) }
    {
        if let Some(place) = guessed(&self.groups, &self.guesses, key) {
            return combine_at(aggs, &mut self.groups, place, values);
        }
        if is_beyond(most, &self.places, key) {
            return Ok(());
        }
        if let Some(place) = self.places.get(key).copied() {
            self.guesses.note(key, place);
            return combine_at(aggs, &mut self.groups, place, values);
        }
        let alloc = *self.groups.allocator();
        let row = row_of(alloc, key, values)?;
        let own = Vec::from_slice(alloc, key)?;
        if self.places.len() < most {
            self.guesses.serve(self.groups.len())?;
            add(&mut self.groups, &mut self.places, own, row)?;
        } else {
            replace_last(&mut self.groups, &mut self.places, own, row)?;
        }
        Ok(())
    }

    /// Puts rows among the first groups, one after the other.
    pub(crate) fn put_all(
        &mut self,
        aggs: &[Agg],
        most: usize,
        rows: &[Row],
    ) -> Result<(), GroupError>
        requires short { length self.old ≤ most }
        requires full { AreFull aggs.now self.old }
        requires rows_full { AreFull aggs.now rows.now }
        ensures put { OnOk result (self.new ≡ take most (put_rows aggs.now self.old rows.now)) }
    {
        'each_row: for row in rows {
            self.put(aggs, most, row.key.as_slice(), row.values.as_slice())?;
        }
        Ok(())
    }

    /// The groups. No key and no value is copied.
    pub(crate) fn into_rows(self) -> Result<RowList, AllocError>
        ensures rows { IfOk result (λ rows. rows ≡ self) }
        ensures few { IfOk result (λ rows. length rows < 2 ^ 63) }
    {
        let Held {
            groups,
            places,
            guesses: _,
        } = self;
        Ok(Items::from_vec(listed(groups, places)?))
    }
}

// A row of these bytes and values.
fn row_of(alloc: Global, key: &[u8], values: &[Amount]) -> Result<Row, AllocError>
    ensures { IfOk result (λ row. row ≡ record { key = key.now; values = values.now }) }
{
    Ok(Row {
        key: Items::from_bytes(alloc, key)?,
        values: Items::from_vec(Vec::from_slice(alloc, values)?),
    })
}

// Where the group of a key stands, if it is at the place that is guessed.
fn guessed(groups: &[Row], guesses: &Guesses, key: &[u8]) -> Option<usize>
    ensures { IfSome result (λ place. StandsAt groups.now place key.now) }
{
    let place = guesses.place(key)?;
    if groups.get(place)?.key.as_slice() == key {
        Some(place)
    } else {
        None
    }
}

// Combines a newer row's values into a group's, where no sum leaves its type.
fn combine_within(aggs: &[Agg], old: &mut Values, new: &[Amount]) -> Result<(), GroupError>
    requires old_full { length old.old ≡ length aggs.now }
    requires new_full { length new.now ≡ length aggs.now }
    ensures ok { OnOk result (old.new ≡ row_combined aggs.now old.old new.now) }
    ensures err { OnErr result (old.new ≡ old.old) }
    ensures cause { OnErr result (AllCombine aggs.now old.old new.now → ⊥) }
{
    if !combines_all(aggs, old.as_slice(), new) {
        return Err(GroupError::Sum);
    }
    combine_into(aggs, old, new);
    Ok(())
}

// Combines a newer row's values into those of the group at a place.
fn combine_at(
    aggs: &[Agg],
    groups: &mut Vec<Row>,
    place: usize,
    new: &[Amount],
) -> Result<(), GroupError>
    requires within { place < length groups.old.items }
    requires old_full { length (values_in groups.old.items place) ≡ length aggs.now }
    requires new_full { length new.now ≡ length aggs.now }
    ensures ok { OnOk result (groups.new.items ≡ with_values groups.old.items place (row_combined aggs.now (values_in groups.old.items place) new.now)) }
    ensures err { OnErr result (groups.new.items ≡ groups.old.items) }
    ensures cause { OnErr result (AllCombine aggs.now (values_in groups.old.items place) new.now → ⊥) }
{
    let group = &mut groups[place];
    combine_within(aggs, &mut group.values, new)
}

// Whether there are as many groups as are wanted, all of them before the key.
fn is_beyond(most: usize, places: &BTreeMap<Vec<u8>, usize>, key: &[u8]) -> bool
    ensures beyond { IsTrue result → (groups : _) → (aggs : _) → (values : List ℤ) → length places.now.entries ≤ most → take most (put_row aggs (record { key = key.now; values = values }) (rows_in groups places.now.entries)) ≡ rows_in groups places.now.entries }
    ensures within { result ≡ false → most ≤ length places.now.entries → IsNotBehind key.now places.now.entries }
{
    if places.len() < most {
        return false;
    }
    match places.last_key_value() {
        Some((last, _)) => last.as_slice().cmp(key).is_lt(),
        None => most == 0,
    }
}

// Adds a group whose key isn't there.
fn add(
    groups: &mut Vec<Row>,
    places: &mut BTreeMap<Vec<u8>, usize>,
    key: Vec<u8>,
    row: Row,
) -> Result<(), AllocError>
    requires placed { ArePlaced groups.old.items places.old.entries }
    requires absent { lookup (is_key key.items) places.old.entries ≡ None }
    requires own { row.key ≡ key.items }
    ensures placed { OnOk result (ArePlaced groups.new.items places.new.entries) }
    ensures put { OnOk result ((aggs : _) → rows_in groups.new.items places.new.entries ≡ put_row aggs row (rows_in groups.old.items places.old.entries)) }
    ensures same_groups { OnErr result (groups.new.items ≡ groups.old.items) }
    ensures same_places { OnErr result (places.new.entries ≡ places.old.entries) }
{
    let place = groups.len();
    groups.push(row)?;
    if let Err(error) = places.insert(key, place) {
        let _ = groups.pop();
        return Err(error.into());
    }
    Ok(())
}

// Puts a group whose key isn't there in the place of the last, which falls off.
fn replace_last(
    groups: &mut Vec<Row>,
    places: &mut BTreeMap<Vec<u8>, usize>,
    key: Vec<u8>,
    row: Row,
) -> Result<(), AllocError>
    requires placed { ArePlaced groups.old.items places.old.entries }
    requires absent { lookup (is_key key.items) places.old.entries ≡ None }
    requires before { IsNotBehind key.items places.old.entries }
    requires own { row.key ≡ key.items }
    ensures placed { OnOk result (ArePlaced groups.new.items places.new.entries) }
    ensures put { OnOk result ((aggs : _) → rows_in groups.new.items places.new.entries ≡ take (length places.old.entries) (put_row aggs row (rows_in groups.old.items places.old.entries))) }
    ensures same_groups { OnErr result (groups.new.items ≡ groups.old.items) }
    ensures same_places { OnErr result (places.new.entries ≡ places.old.entries) }
{
    let Some(place) = last_place(places) else {
        return Ok(());
    };
    places.insert(key, place)?;
    let _ = places.pop_last();
    groups[place] = row;
    Ok(())
}

// The place of the last group.
fn last_place(places: &BTreeMap<Vec<u8>, usize>) -> Option<usize>
    ensures { MatchOption result (length places.now.entries ≡ 0) (λ place. (key : _) × (slice_get places.now.entries (length places.now.entries - 1) ≡ Some (key, place))) }
{
    match places.last_key_value() {
        Some((_, place)) => Some(*place),
        None => None,
    }
}

// The groups in the order of their keys.
fn listed(mut groups: Vec<Row>, places: BTreeMap<Vec<u8>, usize>) -> Result<Vec<Row>, AllocError>
    requires placed { ArePlaced groups.items places.entries }
    ensures rows { IfOk result (λ rows. rows.items ≡ rows_in groups.items places.entries) }
    ensures few { length places.entries < 2 ^ 63 }
{
    let alloc = *groups.allocator();
    let mut rows = Vec::with_capacity(alloc, places.len())?;
    for (key, place) in places {
        let key = Items::from_vec(key);
        let values = take_values(&mut groups, place);
        rows.push(Row { key, values })?;
    }
    Ok(rows)
}

// Takes the values of the group at a place out of it.
fn take_values(groups: &mut Vec<Row>, place: usize) -> Values
    requires { place < length groups.old.items }
    ensures taken { result ≡ values_in groups.old.items place }
    ensures left { groups.new.items ≡ with_values groups.old.items place [] }
{
    let none = Items::new(*groups.allocator());
    let group = &mut groups[place];
    replace(&mut group.values, none)
}
