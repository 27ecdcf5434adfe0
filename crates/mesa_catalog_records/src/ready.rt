// Records in the form in which they are taken in.
use mesa_list::Items;
use mesa_schema::{Evolving, Totals};
use mesa_table_records::{Delta, ReadyPart, ReadyRecast, Table};
use std::sync::Arc;

/// A record, with all made that takes memory.
#[derive(Drop)]
pub enum Ready {
    Run {
        number: u32,
    },
    Table {
        made: Table,
    },
    View {
        table: u16,
        evolving: Arc<Evolving>,
    },
    Alter {
        table: u16,
        evolving: Arc<Evolving>,
        widths: Items<u8>,
        totals: Totals,
    },
    Publish {
        version: u32,
        parts: Vec<ReadyPart>,
    },
    Swap {
        table: u16,
        base: bool,
        from: u32,
        to: u32,
        delta: Arc<Delta>,
    },
    Expire {
        version: u32,
    },
    ExpireTable {
        table: u16,
        version: u32,
    },
    Recast {
        table: u16,
        made: ReadyRecast,
    },
}
