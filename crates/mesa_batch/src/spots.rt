// Places of gathered rows, with the first bytes of their keys.
ghost use Rattle.std.specs.Prelude.{◌≡◌, ◌<◌, ◌≤◌, length, drop, map, slice_index_or, IfOk};
ghost use Rattle.std.specs.List.{All, range_with_len};
ghost use Rattle.std.specs.Ordering.{nat_cmp, ordering_then};
ghost use Rattle.mesa_schema.specs.mesa_key.Order.{byte_cmp};
ghost use Rattle.mesa_batch.specs.Flat.{is_twice, placed_at};
ghost use Rattle.mesa_batch.specs.Heads.{IsSpot, has_same_head, head_of, heads_cmp, place_of, spotted_cmp};

use crate::flat::FlatRows;
use mesa_schema::compare as compare_bytes;
use std::alloc::{AllocError, Global};
use std::cmp::Ordering;

/// The place of a row, with its table's number and the first 24 bytes of its key as three numbers: these decide most comparisons of rows, and all where the key is three ints or less.
#[derive(Clone, Copy)]
pub(crate) struct Spot {
    pub(crate) first: u64,
    pub(crate) second: u64,
    pub(crate) third: u64,
    pub(crate) table: u16,
    pub(crate) place: u32,
}

/// The spots of all rows, in the rows' order.
pub(crate) fn spots(alloc: Global, rows: &FlatRows) -> Result<Vec<Spot>, AllocError>
    ensures places { IfOk result (λ spots. map place_of spots.items ≡ range_with_len 0 (length rows.now)) }
    ensures spots { IfOk result (λ spots. All (IsSpot rows.now) spots.items) }
{
    let mut spots = Vec::with_capacity(alloc, rows.len())?;
    'places: for place in 0..rows.len() as u32 {
        spots.push(spot_of(rows, place))?;
    }
    Ok(spots)
}

// The spot of the row at a place.
fn spot_of(rows: &FlatRows, place: u32) -> Spot
    ensures place { result.place ≡ place }
    ensures spot { IsSpot rows.now result }
{
    let key = rows.key(place as usize);
    Spot {
        first: head(key),
        second: head(behind(key, 8)),
        third: head(behind(key, 16)),
        table: rows.table(place as usize),
        place,
    }
}

// What a key has from a place on.
fn behind(key: &[u8], place: usize) -> &[u8]
    ensures { result.now ≡ drop place key.now }
{
    if place < key.len() {
        &key[place..]
    } else {
        &[]
    }
}

// The first eight bytes as one number, with zeros behind the end.
fn head(key: &[u8]) -> u64
    ensures { result ≡ head_of key.now }
{
    if key.len() < 8 {
        return short_head(key);
    }
    u64::from_be_bytes([
        key[0], key[1], key[2], key[3], key[4], key[5], key[6], key[7],
    ])
}

// The same where there are fewer bytes.
fn short_head(key: &[u8]) -> u64
    ensures { result ≡ head_of key.now }
{
    u64::from_be_bytes([
        byte(key, 0),
        byte(key, 1),
        byte(key, 2),
        byte(key, 3),
        byte(key, 4),
        byte(key, 5),
        byte(key, 6),
        byte(key, 7),
    ])
}

// The byte of a key at a place, and 0 behind its end.
fn byte(key: &[u8], place: usize) -> u8
    ensures { result ≡ slice_index_or key.now place 0 }
{
    if place < key.len() { key[place] } else { 0 }
}

/// How the rows of two spots are ordered.
pub(crate) fn compare(rows: &FlatRows, a: &Spot, b: &Spot) -> Ordering
    ensures { result ≡ spotted_cmp rows.now a.now b.now }
{
    match a.table.cmp(&b.table) {
        Ordering::Equal => match compare_heads(a, b) {
            Ordering::Equal => compare_keys(rows, a.place, b.place),
            order => order,
        },
        order => order,
    }
}

// How the first bytes of two keys are ordered.
fn compare_heads(a: &Spot, b: &Spot) -> Ordering
    ensures { result ≡ heads_cmp a.now b.now }
{
    match a.first.cmp(&b.first) {
        Ordering::Equal => match a.second.cmp(&b.second) {
            Ordering::Equal => a.third.cmp(&b.third),
            order => order,
        },
        order => order,
    }
}

// How the whole keys of two places are ordered, and where they are the same the places themselves.
fn compare_keys(rows: &FlatRows, a: u32, b: u32) -> Ordering
    ensures { result ≡ ordering_then (byte_cmp (placed_at rows.now a).row.key (placed_at rows.now b).row.key) (nat_cmp a b) }
{
    match compare_bytes(rows.key(a as usize), rows.key(b as usize)) {
        Ordering::Equal => a.cmp(&b),
        order => order,
    }
}

/// Whether the rows of two spots have one table and key.
pub(crate) fn is_same(rows: &FlatRows, a: &Spot, b: &Spot) -> bool
    requires first { IsSpot rows.now a.now }
    requires second { IsSpot rows.now b.now }
    ensures { result ≡ is_twice rows.now a.now.place b.now.place }
{
    if a.table != b.table {
        return false;
    }
    if !begins_same(a, b) {
        return false;
    }
    rows.key(b.place as usize) == rows.key(a.place as usize)
}

// Whether the first bytes of two keys are the same.
fn begins_same(a: &Spot, b: &Spot) -> bool
    ensures { result ≡ has_same_head a.now b.now }
{
    a.first == b.first && a.second == b.second && a.third == b.third
}
