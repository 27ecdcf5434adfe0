// Two ordered streams of rows compared row by row.
ghost use Rattle.std.specs.Prelude.{◌≡◌, ◌++◌, ◌∷◌, List, Some, IfSome, IfNone, IsTrue, option_map};
ghost use Rattle.mesa_schema.specs.mesa_columns.declared.rows.Row.{Row as AnyRow};
ghost use Rattle.mesa_schema.specs.mesa_columns.Lent.{lent};
ghost use Rattle.mesa_schema.specs.mesa_columns.Rows.{keys_rise};
ghost use Rattle.mesa_compare.specs.Difference.{first_difference, next_of};

use mesa_schema::LentRow;

/// The first key at which two lists of rows differ that were the same so far and go on with these rows; none where these are the same too. No row stands for the end of a list.
pub fn differing_key<'a>(one: Option<LentRow<'a>>, other: Option<LentRow<'a>>) -> Option<&'a [u8]>
    ensures same { IfNone result (option_map lent one.entry ≡ option_map lent other.entry) }
    ensures first { IfSome result (λ key. (front rows others : List AnyRow) → next_of rows ≡ option_map lent one.entry → next_of others ≡ option_map lent other.entry
        → IsTrue (keys_rise (front ++ rows)) → IsTrue (keys_rise (front ++ others)) → first_difference (front ++ rows) (front ++ others) ≡ Some key.now) }
{
    match one {
        Some(row) => match other {
            Some(beside) => differing_rows(row, beside),
            None => Some(row.key),
        },
        None => match other {
            Some(beside) => Some(beside.key),
            None => None,
        },
    }
}

// The lesser key of two rows that aren't the same.
fn differing_rows<'a>(row: LentRow<'a>, beside: LentRow<'a>) -> Option<&'a [u8]>
    ensures same { IfNone result (lent row.entry ≡ lent beside.entry) }
    ensures first { IfSome result (λ key. (rows others : List AnyRow) → IsTrue (keys_rise (lent row.entry ∷ rows)) → IsTrue (keys_rise (lent beside.entry ∷ others))
        → first_difference (lent row.entry ∷ rows) (lent beside.entry ∷ others) ≡ Some key.now) }
{
    let order = row.key.cmp(beside.key);
    if order.is_lt() {
        return Some(row.key);
    }
    if order.is_gt() {
        return Some(beside.key);
    }
    if row.values == beside.values {
        return None;
    }
    Some(row.key)
}
