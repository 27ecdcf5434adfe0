// What a batch brings to a table, and what a recast makes of one.
use mesa_catalog_table::{Base, Delta, Loaded};
use mesa_list::Items;
use mesa_schema::{Evolving, Totals};
use std::sync::Arc;

/// What a batch brings to the table of a number, and the table's totals with it.
#[derive(Drop)]
pub struct ReadyPart {
    pub table: u16,
    pub delta: Arc<Delta>,
    pub totals: Totals,
}

/// What a recast makes of a table. Its name and its oldest version stay.
#[derive(Drop)]
pub struct ReadyRecast {
    pub evolving: Arc<Evolving>,
    /// How many value columns there were in each epoch.
    pub widths: Items<u8>,
    pub totals: Totals,
    pub base: Option<Base>,
    /// By rising versions.
    pub loaded: Vec<Loaded>,
}
