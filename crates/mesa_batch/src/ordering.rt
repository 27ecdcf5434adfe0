// The order of gathered rows: by table, and then by key.
ghost use Rattle.std.specs.Prelude.{◌≡◌, ◌<◌, ℕ, [], ◌==◌, ◌++◌, ◌∷◌, cond, length, map, slice_index_or, IfOk, OnOk};
ghost use Rattle.std.specs.List.{All, range_with_len};
ghost use Rattle.std.specs.List.Sorted.{IsPermutation, IsSorted};
ghost use Rattle.mesa_batch.specs.declared.spots.Spot.{Spot};
ghost use Rattle.mesa_batch.specs.Flat.{IsFirstTwice, earlier_twice, is_twice, spot_cmp};
ghost use Rattle.mesa_batch.specs.Heads.{IsSpot, place_of, places_for};

use crate::flat::FlatRows;
use crate::spots::{Spot, compare, is_same, spots};
use mesa_list::Items;
use std::alloc::{AllocError, Global};

/// The spots of all rows, in the order of their tables and keys; those of one table and key in the order of their places.
pub(crate) fn ordered(alloc: Global, rows: &FlatRows) -> Result<Vec<Spot>, AllocError>
    ensures permutation { IfOk result (λ order. IsPermutation (range_with_len 0 (length rows.now)) (map place_of order.items)) }
    ensures sorted { IfOk result (λ order. IsSorted (spot_cmp rows.now) (map place_of order.items)) }
    ensures spots { IfOk result (λ order. All (IsSpot rows.now) order.items) }
{
    let mut spots = spots(alloc, rows)?;
    sort(rows, &mut spots);
    Ok(spots)
}

fn sort(rows: &FlatRows, spots: &mut [Spot])
    requires { All (IsSpot rows.now) spots.old }
    ensures permutation { IsPermutation (map place_of spots.old) (map place_of spots.new) }
    ensures sorted { IsSorted (spot_cmp rows.now) (map place_of spots.new) }
    ensures spots { All (IsSpot rows.now) spots.new }
{
    spots.sort_unstable_by(|a, b| compare(rows, a, b));
}

/// Of the neighbours in this order that have one table and key, those whose second one comes first.
pub(crate) fn first_twice(rows: &FlatRows, order: &[Spot]) -> Option<(u32, u32)>
    requires { All (IsSpot rows.now) order.now }
    ensures { let places = map place_of order.now in IsFirstTwice rows.now places (length places) result }
{
    let mut found = None;
    'places: for place in 1..order.len() {
        found = earlier(rows, found, &order[place - 1], &order[place]);
    }
    found
}

// What was found so far, or these neighbours, where they have one table and key and their second one comes before.
fn earlier(rows: &FlatRows, found: Option<(u32, u32)>, a: &Spot, b: &Spot) -> Option<(u32, u32)>
    requires first { IsSpot rows.now a.now }
    requires second { IsSpot rows.now b.now }
    ensures { result ≡ earlier_twice (is_twice rows.now a.now.place b.now.place) found (a.now.place, b.now.place) }
{
    if !is_same(rows, a, b) {
        return found;
    }
    let pair = (a.place, b.place);
    match found {
        None => Some(pair),
        Some(before) => {
            if before.1 <= pair.1 {
                Some(before)
            } else {
                Some(pair)
            }
        }
    }
}

/// The places of each table's rows, in this order.
pub(crate) fn parted(
    alloc: Global,
    count: usize,
    order: &[Spot],
) -> Result<Items<Items<u32>>, AllocError>
    requires { All (λ (s : Spot). s.table < count) order.now }
    ensures { IfOk result (λ tables. (table : ℕ) → slice_index_or tables table [] ≡ places_for table order.now) }
{
    let mut tables = empty_tables(alloc, count)?;
    'order: for spot in order {
        push_place(&mut tables, spot.table, spot.place)?;
    }
    Ok(tables)
}

// As many tables without places.
fn empty_tables(alloc: Global, count: usize) -> Result<Items<Items<u32>>, AllocError>
    ensures count { IfOk result (λ tables. length tables ≡ count) }
    ensures empty { IfOk result (λ tables. (table : ℕ) → slice_index_or tables table [] ≡ []) }
{
    let mut tables = Items::new(alloc);
    'tables: for _ in 0..count {
        tables.push(Items::new(alloc))?;
    }
    Ok(tables)
}

// Adds a place to its table's.
fn push_place(tables: &mut Items<Items<u32>>, table: u16, place: u32) -> Result<(), AllocError>
    requires { table < length tables.old }
    ensures count { length tables.new ≡ length tables.old }
    ensures places { OnOk result ((t : ℕ) → slice_index_or tables.new t [] ≡ slice_index_or tables.old t [] ++ cond (table == t) (place ∷ []) []) }
{
    tables.at_mut(table as usize).push(place)
}
