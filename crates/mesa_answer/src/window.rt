// Which part of a row is put into its group, where it stands there in one piece.
ghost use Rattle.std.specs.Prelude.{◌≡◌, ◌+◌, ◌≤◌, List, length, take, IfSome, IsTrue};
ghost use Rattle.std.specs.List.{range_with_len};
ghost use Rattle.mesa_model.specs.mesa_columns.Lent.{lent};
ghost use Rattle.mesa_answer.specs.Window.{AreInts, IsWindow, in_window};

use mesa_key::KeyType;
use mesa_schema::LentRow;

/// The bytes of an int in a key.
const INT: usize = 8;

/// Where a group's key and its values stand in each row, where each of both stands there in one piece: the group's key columns are neighbours, with nothing but ints up to the last of them, and so are its value columns. What is put into the group is then lent by the row.
#[derive(Clone, Copy)]
pub(crate) struct Window {
    // The first byte, and how many there are.
    key_at: usize,
    key_len: usize,
    // The first value, and how many there are.
    values_at: usize,
    values_len: usize,
}

impl Window {
    /// That of the key columns and value columns at these places.
    pub(crate) fn of(kinds: &[KeyType], columns: &[u16], values: &[u16]) -> Option<Window>
        ensures { IfSome result (λ window. IsWindow kinds.now columns.now values.now window) }
    {
        let first = first_of_run(columns)?;
        if !are_ints(kinds, first + columns.len()) {
            return None;
        }
        Some(Window {
            key_at: INT * first,
            key_len: INT * columns.len(),
            values_at: first_of_run(values)?,
            values_len: values.len(),
        })
    }

    /// What is put into the group of a row.
    pub(crate) fn row<'r>(&self, row: LentRow<'r>) -> Option<LentRow<'r>>
        ensures { IfSome result (λ part. lent part ≡ in_window self.now (lent row.entry)) }
    {
        Some(LentRow {
            key: row.key.get(self.key_at..)?.get(..self.key_len)?,
            values: row.values.get(self.values_at..)?.get(..self.values_len)?,
        })
    }
}

// The first of these places, if each other one is the next.
fn first_of_run(places: &[u16]) -> Option<usize>
    ensures run { IfSome result (λ first. places.now ≡ range_with_len first (length places.now)) }
    ensures small { IfSome result (λ first. first + length places.now ≤ 65536) }
{
    let first = match places {
        [] => 0,
        [first, ..] => *first as usize,
    };
    let mut next = first;
    for place in places {
        if *place as usize != next {
            return None;
        }
        next += 1;
    }
    Some(first)
}

// Whether there are so many of these types, and the first of them are ints.
fn are_ints(kinds: &[KeyType], count: usize) -> bool
    ensures { IsTrue result → AreInts (take count kinds.now) × (count ≤ length kinds.now) }
{
    let Some(kinds) = kinds.get(..count) else {
        return false;
    };
    for kind in kinds {
        match kind {
            KeyType::Int => {}
            KeyType::Text => return false,
        }
    }
    true
}
