// Laws on the entries of names: what turns, joins and the end of a lock do to them.
ghost use Rattle.std.specs.Prelude.{◌≡◌, ◌<◌, ◌+◌, ◌++◌, ℕ, List, [], ◌∷◌, Bool, IsTrue, false, length};
ghost use Rattle.mesa_turn.specs.History.{AreApart, Within, entries_of, has, name_of};
ghost use Rattle.mesa_turn.specs.Passes.{Finds, IsExact, Joins, Known};

/// A turn finds no entries of a pass's names but those that the pass had seen.
pub fn entries_found()
    ensures { (p : Known) (ticket : ℕ) (list names : List ℕ) → Finds p ticket list → IsExact p → Within names p.names
        → entries_of names list ≡ entries_of names p.seen }
{}

/// After a turn there is one entry more, at the end.
pub fn entries_more()
    ensures { (p : Known) (ticket entry : ℕ) (list names : List ℕ) → Finds p ticket list → IsExact p → Within names p.names
        → IsTrue (has names (name_of entry)) → entries_of names (list ++ entry ∷ []) ≡ entries_of names p.seen ++ entry ∷ [] }
{}

/// What stands behind the entries that a pass has seen, where its turn comes or where it was joined, is
/// of other names. A turn of another name adds nothing to a name's entries.
pub fn others_behind()
    ensures found { (p : Known) (ticket : ℕ) (list rest names : List ℕ) → Finds p ticket list → IsExact p → Within names p.names → p.seen ++ rest ≡ list → entries_of names rest ≡ [] }
    ensures first { (a b p : Known) (rest names : List ℕ) → Joins a b p → Within names a.names → a.seen ++ rest ≡ p.seen → entries_of names rest ≡ [] }
    ensures second { (a b p : Known) (rest names : List ℕ) → Joins a b p → Within names b.names → b.seen ++ rest ≡ p.seen → entries_of names rest ≡ [] }
    ensures more { (p : Known) (ticket entry : ℕ) (list names : List ℕ) → Finds p ticket list → IsExact p → Within names p.names
        → has names (name_of entry) ≡ false → entries_of names (list ++ entry ∷ []) ≡ entries_of names p.seen }
{}

/// A join adds nothing to the entries of either pass's names.
pub fn entries_kept_in()
    ensures first { (a b p : Known) (names : List ℕ) → Joins a b p → Within names a.names → entries_of names p.seen ≡ entries_of names a.seen }
    ensures second { (a b p : Known) (names : List ℕ) → Joins a b p → Within names b.names → entries_of names p.seen ≡ entries_of names b.seen }
{}

/// Where every position is a pass's own, as at the end of a lock, its entries are the history.
pub fn entries_all()
    ensures { (p : Known) → IsExact p → ((k : ℕ) → k < length p.seen → IsTrue (has p.own k))
        → entries_of p.names p.seen ≡ p.seen }
{}

/// Two lists of names that have none in common have as many entries as they have together.
pub fn entries_apart()
    ensures { (names others list : List ℕ) → AreApart names others
        → length (entries_of (names ++ others) list) ≡ length (entries_of names list) + length (entries_of others list) }
{}
