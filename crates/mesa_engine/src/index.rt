// An index of holds. A hold that was made later is on each file dropped behind it that one made before it is on, since no fewer
// ids had been given. So whether one is on a file hangs on the last one alone that was made before the file was dropped.
ghost use Rattle.std.specs.Prelude.{◌≡◌, length, vec_capacity};
ghost use Rattle.std.specs.List.Sorted.{IsNonDecreasingBy};
ghost use Rattle.mesa_commit.specs.Holding.{is_held};
ghost use Rattle.mesa_commit.specs.declared.trash.Hold.{Hold as AnyHold};
ghost use Rattle.mesa_engine.specs.Index.{IsIndex, IsIndexOf};

use mesa_commit::{Dropped, Hold};

// Whether a hold of the index is on the file.
pub(crate) fn is_found(index: &[Hold], dropped: &Dropped) -> bool
    requires { IsIndex index.now }
    ensures { result ≡ is_held index.now dropped.now }
{
    let before = index.partition_point(|hold| hold.at < dropped.at);
    before > 0 && dropped.id.number() < index[before - 1].next
}

// Makes an index of holds. It takes no memory.
pub(crate) fn make_index(holds: &mut Vec<Hold>)
    ensures index { IsIndexOf holds.old.items holds.new.items }
    ensures room { vec_capacity holds.new ≡ vec_capacity holds.old }
{
    holds.sort_unstable_by_key(|hold| hold.at);
    reach(holds);
}

// Lets each of some holds, in the order in which they were made, reach as far as those before it. It is then on no other files
// than one of these, which was made before it.
fn reach(holds: &mut [Hold])
    requires { IsNonDecreasingBy (λ (h : AnyHold). h.at) holds.old }
    ensures { IsIndexOf holds.old holds.new }
{
    let mut next = 0;
    for hold in holds {
        next = next.max(hold.next);
        hold.next = next;
    }
}
