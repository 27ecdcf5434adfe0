// The same query of a relation whose columns are some of another's, in an order of its own.
ghost use Rattle.std.specs.Prelude.{◌≡◌, ◌<◌, ◌==◌, ◌^◌, IfOk, IfSome, length, map, position};
ghost use Rattle.mesa_filter.specs.Among.{place_among as place_in, term_among as term_in};

use crate::Term;
use crate::places::Places;
use mesa_list::{Items, TryCopy};
use std::alloc::{AllocError, Global};

fn first_at(places: &[u16], place: u16) -> Option<usize>
    ensures within { IfSome result (λ at. at < length places.now) }
    ensures first { result ≡ position (λ p. p == place) places.now }
{
    places.iter().position(|other| *other == place)
}

// A place's place among these; behind the last one where it is none of them.
fn place_among(places: &[u16], place: u16) -> u16
    requires { length places.now < 2 ^ 16 }
    ensures { result ≡ place_in places.now place }
{
    match first_at(places, place) {
        Some(at) => at as u16,
        None => places.len() as u16,
    }
}

/// Places by their places among these.
pub(crate) fn places_among(
    alloc: Global,
    among: &[u16],
    places: &[u16],
) -> Result<Places, AllocError>
    requires { length among.now < 2 ^ 16 }
    ensures { IfOk result (λ moved. moved ≡ map (place_in among.now) places.now) }
{
    let mut moved = Items::new(alloc);
    'places: for place in places {
        moved.push(place_among(among, *place))?;
    }
    Ok(moved)
}

// A term, by its column's place among these.
fn term_among(among: &[u16], term: &Term) -> Result<Term, AllocError>
    requires { length among.now < 2 ^ 16 }
    ensures { IfOk result (λ moved. moved ≡ term_in among.now term.now) }
{
    let literals = term.literals.copy()?;
    Ok(Term {
        column: place_among(among, term.column),
        comparison: term.comparison,
        literals,
    })
}

/// Terms, by their columns' places among these.
pub(crate) fn terms_among(
    alloc: Global,
    among: &[u16],
    terms: &[Term],
) -> Result<Items<Term>, AllocError>
    requires { length among.now < 2 ^ 16 }
    ensures { IfOk result (λ moved. moved ≡ map (term_in among.now) terms.now) }
{
    let mut moved = Items::new(alloc);
    'terms: for term in terms {
        moved.push(term_among(among, term)?)?;
    }
    Ok(moved)
}
