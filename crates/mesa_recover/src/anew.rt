// Stating a catalogue anew.
ghost use Rattle.std.specs.Prelude.{◌≡◌, ℕ, List, IfOk, IfSome, Some};
ghost use Rattle.std.specs.List.{AllByRecursion};
ghost use Rattle.mesa_store.specs.mesa_key.Spelling.{AreBytes};
ghost use Rattle.mesa_journal.specs.Areas.{number_of};
ghost use Rattle.mesa_store_spec.specs.Journaled.{catalog as catalog_of};
ghost use Rattle.mesa_recover.specs.Anew.{StatesAnewBy};

use crate::opened::LiveArea;
use mesa_catalog::Catalog;
use mesa_journal::Framed;
use mesa_record::encode;
use std::alloc::{AllocError, Global};

// An area that ends here or behind is long.
const LONG: u64 = 1 << 16;
// The length of the longest checkpoint that is written.
const LONGEST: usize = 1 << 30;

/// The checkpoint that states a catalogue anew, in its frame: where the live area is long, a number is left, and the checkpoint isn't too long.
pub(crate) fn state_anew(
    alloc: Global,
    catalog: &Catalog,
    live: LiveArea,
) -> Result<Option<Framed>, AllocError>
    requires { (bodies : List (List ℕ)) × AllByRecursion AreBytes bodies × (catalog_of live.area bodies ≡ Some catalog.now.catalogue) × (live.number ≡ number_of bodies) }
    ensures anew { IfOk result (StatesAnewBy live.end live.number catalog.now.catalogue) }
    ensures bytes { IfOk result (λ x. IfSome x AreBytes) }
{
    if live.end < LONG {
        return Ok(None);
    }
    let Some(number) = live.number.checked_add(1) else {
        return Ok(None);
    };
    let checkpoint = catalog.checkpoint(alloc, number, catalog.run())?;
    let body = encode(alloc, &checkpoint)?;
    if body.len() > LONGEST {
        return Ok(None);
    }
    let framed = Framed::new(alloc, &body)?;
    Ok(Some(framed))
}
