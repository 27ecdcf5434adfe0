// Which columns are chosen.
ghost use Rattle.std.specs.Prelude.{◌≡◌, ◌≤◌, ℕ, false, length, map, slice_index_or};
ghost use Rattle.std.specs.List.{list_all, range_with_len};
ghost use Rattle.mesa_model.specs.mesa_columns.Columns.{places_in};
ghost use Rattle.mesa_model.specs.Orders.{has_place};

use mesa_schema::{Name, Named, place_of};

/// A mark at the place of each column that is chosen by its name. A table has at most 16 columns of each sort.
pub(crate) fn marks<C: Named>(names: &[Name], columns: &[C]) -> [bool; 16]
    requires { length columns.now ≤ 16 }
    ensures { (place : ℕ) → slice_index_or result place false ≡ has_place (places_in (map C.name_of columns.now) names.now) place }
{
    let mut marks = [false; 16];
    'names: for name in names {
        if let Some(place) = place_of(name.bytes(), columns) {
            marks[place] = true;
        }
    }
    marks
}

/// Whether each of these places is marked.
pub(crate) fn are_marked(marks: &[bool; 16], places: &[u16]) -> bool
    ensures { result ≡ list_all (λ place. slice_index_or marks.now place false) places.now }
{
    places.iter().all(|place| is_marked(marks, *place as usize))
}

/// Whether so many places, from the first on, are marked.
pub(crate) fn all_marked(marks: &[bool; 16], count: usize) -> bool
    ensures { result ≡ list_all (λ place. slice_index_or marks.now place false) (range_with_len 0 count) }
{
    'places: for place in 0..count {
        if !is_marked(marks, place) {
            return false;
        }
    }
    true
}

fn is_marked(marks: &[bool; 16], place: usize) -> bool
    ensures { result ≡ slice_index_or marks.now place false }
{
    place < marks.len() && marks[place]
}
