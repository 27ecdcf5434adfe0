// What has a name, and looking it up.
ghost use Rattle.std.specs.Prelude.{◌≡◌, map, is_some, option_and_then, slice_get, IfSome, ◌<◌, length, position};
ghost use Rattle.std.specs.List.{list_all};
ghost use Rattle.mesa_key.specs.mesa_list.Bytes.{same_bytes};
ghost use Rattle.mesa_columns.specs.Names.{has_name as is_among, repeated};
ghost use Rattle.mesa_columns.specs.Columns.{place_of as place_among};

use crate::{KeyColumn, Name, ValueColumn, View};

/// What has a name, which no other thing of its sort beside it has.
pub trait Named {
    ghost use Rattle.std.specs.Prelude.{ℕ, List};

    /// Its name.
    ghost name_of: { Self → List ℕ };

    fn name(&self) -> &Name
        ensures { result.now ≡ name_of self.now };
}

impl Named for Name {
    ghost name_of = { λ name. name };

    fn name(&self) -> &Name {
        self
    }
}

impl Named for KeyColumn {
    ghost name_of = { λ column. column.name };

    fn name(&self) -> &Name {
        &self.name
    }
}

impl Named for ValueColumn {
    ghost name_of = { λ column. column.name };

    fn name(&self) -> &Name {
        &self.name
    }
}

impl Named for View {
    ghost name_of = { λ view. view.name };

    fn name(&self) -> &Name {
        &self.name
    }
}

/// Whether one of these has the name.
#[tactic(auto, using(crate::proofs::Maps::is_some_position))]
pub fn has_name<N: Named>(name: &[u8], among: &[N]) -> bool
    ensures { result ≡ is_among name.now (map N.name_of among.now) }
{
    place_of(name, among).is_some()
}

/// Whether each of these names is among the others.
pub fn has_names<N: Named>(names: &[Name], among: &[N]) -> bool
    ensures { result ≡ list_all (λ name. is_among name (map N.name_of among.now)) names.now }
{
    names.iter().all(|name| has_name(name.bytes(), among))
}

/// The place of the first of these that has the name.
#[tactic(auto, using(crate::proofs::Maps::position_map))]
pub fn place_of<N: Named>(name: &[u8], among: &[N]) -> Option<usize>
    ensures within { IfSome result (λ i. i < length among.now) }
    ensures place { result ≡ place_among name.now (map N.name_of among.now) }
{
    first_named(name, among)
}

fn first_named<N: Named>(name: &[u8], among: &[N]) -> Option<usize>
    ensures within { IfSome result (λ i. i < length among.now) }
    ensures place { result ≡ position (λ one. same_bytes name.now (N.name_of one)) among.now }
{
    among.iter().position(|one| name == one.name().bytes())
}

/// The place of the first of these whose name an earlier one has too.
pub fn repeated_place<N: Named>(names: &[N]) -> Option<usize>
    ensures place { IfSome result (λ i. i < length names.now) }
    ensures name { option_and_then (slice_get (map N.name_of names.now)) result ≡ repeated (map N.name_of names.now) }
    ensures found { is_some result ≡ is_some (repeated (map N.name_of names.now)) }
{
    for (i, one) in names.iter().enumerate() {
        if has_name(one.name().bytes(), &names[..i]) {
            return Some(i);
        }
    }
    None
}
