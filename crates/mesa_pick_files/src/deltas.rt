// Deltas that are lent.
ghost use Rattle.std.specs.Prelude.{◌≡◌, option_map};
ghost use Rattle.mesa_catalog_table.specs.declared.table.Base.{Base as BaseOf};
ghost use Rattle.mesa_catalog_table.specs.Meaning.{ending_of};
ghost use Rattle.mesa_validate.specs.mesa_store_spec.Fitting.{base_deltas};
ghost use Rattle.mesa_pick_files.specs.Lent.{lent_if_any, with_rows};

use mesa_catalog_table::{Base, Delta, Loaded};

/// Deltas of a table, in version order. A version that brought the table nothing isn't among them.
#[derive(Clone, Copy)]
pub struct Deltas<'a> {
    pub base: Option<&'a Delta>,
    pub cumulative: Option<&'a Delta>,
    pub singles: &'a [Loaded],
}

// The delta of a base that has rows.
pub(crate) fn base_delta(base: &Option<Base>) -> Option<&Delta>
    ensures { with_rows (lent_if_any result) ≡ with_rows (base_deltas (option_map ending_of base.now)) }
{
    match base {
        None => None,
        Some(base) => match &base.delta {
            None => None,
            Some(delta) => Some(delta),
        },
    }
}
