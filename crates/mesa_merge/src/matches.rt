// Which input has the least row at hand: a tree of matches, so that a row taken costs one match for each of its levels.
ghost use Rattle.std.specs.Prelude.{◌≡◌, ◌⊎◌, ◌+◌, ◌-◌, ◌/◌, ◌^◌, ◌<◌, ◌≤◌, ℕ, List, [], length, get_or, replicate, IfOk, IfSome, IfNone};
ghost use Rattle.mesa_scan.specs.Cursors.{at_hand};
ghost use Rattle.mesa_merge.specs.Fronts.{AreFronts, HasFront, IsFront};
ghost use Rattle.mesa_merge.specs.Hands.{IsBefore, IsLeastAt, hands_of};
ghost use Rattle.mesa_merge.specs.Matches.{AreWinners, AreWon, IsTree, IsTreeBut, above};

use mesa_key::{compare, short};
use mesa_scan::Cursor;
use std::alloc::{AllocError, Global};
use std::cmp::Ordering;

/// The matches among inputs.
#[derive(Drop)]
pub(crate) struct Tree {
    winners: Vec<usize>,
    // Each input's front. They stand in one list, so that few matches look at the rows themselves.
    fronts: Vec<u128>,
}

// The matches among so many inputs, of which none has a row at hand.
pub(crate) fn first_tree(alloc: Global, count: usize) -> Result<Tree, AllocError>
    ensures winners { IfOk result (λ t. AreWinners count t.winners.items) }
    ensures fronts { IfOk result (λ t. t.fronts.items ≡ replicate count (2 ^ 128 - 1)) }
{
    let winners = first_winners(alloc, count)?;
    let fronts = vec![in alloc; u128::MAX; count]?;
    Ok(Tree { winners, fronts })
}

// Their winners.
fn first_winners(alloc: Global, count: usize) -> Result<Vec<usize>, AllocError>
    ensures { IfOk result (λ w. AreWinners count w.items) }
{
    let Some(places) = count.checked_add(count) else {
        return Err(AllocError);
    };
    let mut winners = vec![in alloc; 0; places]?;
    let mut place = places;
    'places: while place > 1 {
        place -= 1;
        winners[place] = if place >= count {
            place - count
        } else {
            winners[2 * place]
        };
    }
    Ok(winners)
}

// An input's front.
fn front_of(cursor: &Cursor) -> u128
    ensures { HasFront result (at_hand cursor.now) }
{
    match cursor.head() {
        Some(row) => front(row.key),
        None => u128::MAX,
    }
}

// A key's short key as one number.
fn front(key: &[u8]) -> u128
    ensures { IsFront result key.now }
{
    u128::from_be_bytes(short(key))
}

// Which of two inputs comes before the other, by their fronts, or by their rows at hand where those are the same.
fn first_of(fronts: &[u128], cursors: &[Cursor], a: usize, b: usize) -> usize
    requires a_within { a < length cursors.now }
    requires b_within { b < length cursors.now }
    requires fronts { AreFronts (hands_of cursors.now) fronts.now }
    ensures one { (result ≡ a) ⊎ (result ≡ b) }
    ensures before_a { IsBefore (hands_of cursors.now) result a }
    ensures before_b { IsBefore (hands_of cursors.now) result b }
{
    if fronts[a] < fronts[b] {
        return a;
    }
    if fronts[b] < fronts[a] {
        return b;
    }
    first_by_rows(cursors, a, b)
}

// Which of two inputs comes before the other, by their rows at hand.
fn first_by_rows(cursors: &[Cursor], a: usize, b: usize) -> usize
    requires a_within { a < length cursors.now }
    requires b_within { b < length cursors.now }
    ensures one { (result ≡ a) ⊎ (result ≡ b) }
    ensures before_a { IsBefore (hands_of cursors.now) result a }
    ensures before_b { IsBefore (hands_of cursors.now) result b }
{
    let Some(second) = cursors[b].head() else {
        return a;
    };
    let Some(first) = cursors[a].head() else {
        return b;
    };
    match compare(first.key, second.key) {
        Ordering::Less => a,
        Ordering::Greater => b,
        Ordering::Equal => a.min(b),
    }
}

// Plays an input's matches again after its row at hand has changed.
pub(crate) fn play(tree: &mut Tree, cursors: &[Cursor], i: usize)
    requires within { i < length cursors.now }
    requires changed { IsTreeBut i (hands_of cursors.now) tree.old }
    ensures { IsTree (hands_of cursors.now) tree.new }
{
    tree.fronts[i] = front_of(&cursors[i]);
    play_up(&mut tree.winners, &tree.fronts, cursors, i);
}

// Plays an input's matches, the lowest first.
fn play_up(winners: &mut [usize], fronts: &[u128], cursors: &[Cursor], i: usize)
    requires within { i < length cursors.now }
    requires winners { AreWinners (length cursors.now) winners.old }
    requires won { (place : ℕ) → 2 ≤ place → place < length cursors.now + length cursors.now → ((steps : ℕ) → above steps ((length cursors.now + i) / 2) ≡ place / 2 → ⊥)
        → IsBefore (hands_of cursors.now) (get_or winners.old (place / 2) 0) (get_or winners.old place 0) }
    requires fronts { AreFronts (hands_of cursors.now) fronts.now }
    ensures { AreWon (hands_of cursors.now) winners.new }
{
    let mut place = cursors.len() + i;
    'levels: while place > 1 {
        place /= 2;
        winners[place] = first_of(fronts, cursors, winners[2 * place], winners[2 * place + 1]);
    }
}

/// The first of the inputs whose rows at hand have the least key.
pub(crate) fn least(tree: &Tree, cursors: &[Cursor]) -> Option<usize>
    requires { IsTree (hands_of cursors.now) tree.now }
    ensures within { IfSome result (λ i. i < length cursors.now) }
    ensures least { IfSome result (λ i. IsLeastAt i (hands_of cursors.now)) }
    ensures none { IfNone result ((j : ℕ) → get_or (hands_of cursors.now) j [] ≡ []) }
{
    if cursors.is_empty() {
        return None;
    }
    let first = tree.winners[1];
    match cursors[first].head() {
        Some(_) => Some(first),
        None => None,
    }
}
