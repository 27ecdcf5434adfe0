// Where a merge ends.
ghost use Rattle.std.specs.Prelude.{◌≡◌, ◌<◌, ◌∷◌, [], ℕ, List, length, get_or, IsTrue, IfSome, IfNone, None};
ghost use Rattle.mesa_scan.specs.mesa_columns.declared.rows.Row.{Row as AnyRow};
ghost use Rattle.mesa_scan.specs.Cut.{is_under};
ghost use Rattle.mesa_merge.specs.Hands.{IsLeastAt, IsPast, hands_of};
ghost use Rattle.mesa_merge.specs.Matches.{IsTree};

use crate::matches::{Tree, least};
use mesa_key::KeyBytes;
use mesa_scan::Cursor;

// The first of the inputs whose rows at hand have the least key, where that key is below the high end.
pub(crate) fn least_below(tree: &Tree, cursors: &[Cursor], high: &Option<KeyBytes>) -> Option<usize>
    requires { IsTree (hands_of cursors.now) tree.now }
    ensures within { IfSome result (λ i. i < length cursors.now) }
    ensures least { IfSome result (λ i. IsLeastAt i (hands_of cursors.now)) }
    ensures below { IfSome result (λ i. (row : AnyRow) (rows : List AnyRow) → get_or (hands_of cursors.now) i [] ≡ row ∷ rows → IsTrue (is_under high.now row.key)) }
    ensures none { IfNone result ((j : ℕ) → IsPast high.now (get_or (hands_of cursors.now) j [])) }
    ensures past { ((j : ℕ) → IsPast high.now (get_or (hands_of cursors.now) j [])) → result ≡ None }
{
    let Some(i) = least(tree, cursors) else {
        return None;
    };
    let Some(row) = cursors[i].head() else {
        return None;
    };
    if is_below(row.key, high) {
        Some(i)
    } else {
        None
    }
}

// Whether a key is below the high end, where there is one.
fn is_below(key: &[u8], high: &Option<KeyBytes>) -> bool
    ensures { result ≡ is_under high.now key.now }
{
    match high {
        Some(high) => key.cmp(high.as_slice()).is_lt(),
        None => true,
    }
}
