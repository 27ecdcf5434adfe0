// Gathering a load's rows, one after another.
ghost use Rattle.std.specs.Prelude.{◌≡◌, ◌≢◌, ◌<◌, ℕ, List, [], ◌∷◌, length, Ok, Err, IfOk, IfErr, IfSome, OnErr, OnOk, None};
ghost use Rattle.mesa_schema.specs.mesa_value.declared.Agg.{Agg as Aggregation};
ghost use Rattle.mesa_schema.specs.mesa_columns.Columns.{Columns};
ghost use Rattle.mesa_schema.specs.mesa_fold.Folded.{folded};
ghost use Rattle.mesa_batch.specs.Batch.{rows_for};
ghost use Rattle.mesa_batch.specs.Gathered.{IsReadBy, each_once, read_of, rows_at, with_row};
ghost use Rattle.mesa_batch.specs.Glance.{columns_in, tables_of};
ghost use Rattle.mesa_batch.specs.Shared.{shared_columns};
ghost use Rattle.mesa_batch.specs.Totals.{abs_totals};

use crate::flat::FlatRows;
use crate::ordering::{first_twice, ordered, parted};
use crate::reading::{FieldError, ReadRow, read_row};
use crate::{Batch, BatchError, Glance, RowView};
use mesa_list::Items;
use mesa_schema::Evolving;
use std::alloc::{AllocError, Global};
use std::marker::Model;
use std::sync::Arc;

/// Gathers a load's rows into a batch: each is read by its table's columns. Whether a key comes twice is seen once all are there, by their order.
#[derive(Drop)]
pub struct BatchBuilder {
    // The columns of the glance's tables, once a row was kept.
    columns: Items<Arc<Evolving>>,
    rows: FlatRows,
    // The row that was read last; its room stays for the next one.
    hand: ReadRow,
}

impl Model for BatchBuilder {
    ghost use Rattle.std.specs.Prelude.{length, ◌<◌};
    ghost use Rattle.std.specs.List.{All};
    ghost use Rattle.mesa_batch.specs.Batch.{Placed};
    ghost use Rattle.mesa_batch.specs.Gathered.{Gathered};
    ghost use Rattle.mesa_batch.specs.Shared.{shared_columns};

    ghost Value = { Gathered };

    ghost view = { λ b. record { columns = shared_columns b.columns; rows = b.rows } };

    ghost invariant = { λ b. All (λ (p : Placed). p.table < length b.columns) b.rows };
}

impl BatchBuilder {
    /// No rows yet; it takes no memory.
    pub fn new(alloc: Global) -> Self
        ensures { result ≡ record { columns = []; rows = [] } }
    {
        BatchBuilder {
            columns: Items::new(alloc),
            rows: FlatRows::new(alloc),
            hand: ReadRow {
                key: Vec::new(alloc),
                values: Vec::new(alloc),
            },
        }
    }

    /// Reads the load's next row and keeps it; rows count from 1. All rows of one builder are given with one glance. A key that comes twice is told by `finish`.
    pub fn row(&mut self, glance: &Glance, words: &RowView) -> Result<(), BatchError>
        requires one_glance { IsReadBy glance.now self.old }
        ensures ok { OnOk result (with_row (tables_of glance.now) self.old.rows words.now ≡ Ok self.new.rows) }
        ensures refused { IfErr result (λ e. e ≢ BatchError.Memory → with_row (tables_of glance.now) self.old.rows words.now ≡ Err e) }
        ensures kept { OnErr result (self.new ≡ self.old) }
        ensures columns { OnOk result (self.new.columns ≡ columns_in glance.now) }
        ensures one_glance { IsReadBy glance.now self.new }
    {
        let number = self.rows.len() as u64 + 1;
        let table = read_words(glance, words, number, &mut self.hand)?;
        let shared = share(&self.columns, glance)?;
        self.rows.push(table, self.hand.lend())?;
        if let Some(columns) = shared {
            self.columns = columns;
        }
        Ok(())
    }
}

impl BatchBuilder {
    /// The rows by their tables, each table's in the order of their keys: the fold of the table's rows, since none has another's key. Or the first row whose key stands already. No row is copied.
    pub fn finish(self) -> Result<Batch, BatchError>
        ensures once { OnOk result (each_once self.rows ≡ Ok tt) }
        ensures refused { IfErr result (λ e. e ≢ BatchError.Memory → each_once self.rows ≡ Err e) }
        ensures columns { IfOk result (λ b. b.columns ≡ self.columns) }
        ensures rows { IfOk result (λ b. (table : ℕ) (aggs : List Aggregation) → rows_at table b ≡ folded aggs (rows_for table self.rows ∷ [])) }
        ensures fold { IfOk result (λ b. (table : ℕ) (aggs : List Aggregation) → folded aggs (rows_at table b ∷ []) ≡ rows_at table b) }
        ensures totals { IfOk result (λ b. (table : ℕ) (s : Columns) → abs_totals s (rows_at table b) ≡ abs_totals s (rows_for table self.rows)) }
        ensures count { IfOk result (λ b. b.count ≡ length self.rows) }
    {
        let BatchBuilder {
            columns,
            rows,
            hand: _,
        } = self;
        let order = ordered(columns.allocator(), &rows)?;
        if let Some((first, second)) = first_twice(&rows, &order) {
            return Err(BatchError::DuplicateKey {
                first: u64::from(first) + 1,
                second: u64::from(second) + 1,
            });
        }
        let tables = parted(columns.allocator(), columns.len(), &order)?;
        Ok(Batch::of(columns, rows, tables))
    }
}

// The columns of the glance's tables, where they aren't there yet.
fn share(
    columns: &Items<Arc<Evolving>>,
    glance: &Glance,
) -> Result<Option<Items<Arc<Evolving>>>, AllocError>
    requires one_glance { shared_columns columns.now ≢ [] → shared_columns columns.now ≡ columns_in glance.now }
    ensures some { IfOk result (λ more. IfSome more (λ shared. (columns.now ≡ []) × (shared_columns shared ≡ columns_in glance.now))) }
    ensures none { IfOk result (λ more. more ≡ None → shared_columns columns.now ≡ columns_in glance.now) }
{
    if columns.is_empty() {
        return Ok(Some(glance.columns()?));
    }
    Ok(None)
}

// Reads the row that these words make, before its key is compared with others, and gives its table's number.
fn read_words(
    glance: &Glance,
    words: &RowView,
    number: u64,
    row: &mut ReadRow,
) -> Result<u16, BatchError>
    ensures read { IfOk result (λ table. read_of (tables_of glance.now) number words.now ≡ Ok (record { table = table; row = record { key = row.new.key.items; values = row.new.values.items } })) }
    ensures there { IfOk result (λ table. table < length glance.now.tables) }
    ensures refused { IfErr result (λ e. e ≢ BatchError.Memory → read_of (tables_of glance.now) number words.now ≡ Err e) }
{
    let Some(table) = glance.find(words.table()) else {
        return Err(BatchError::NoTable { row: number });
    };
    let schema = glance.evolving(table).present();
    match read_row(schema, words.fields(), row) {
        Ok(()) => Ok(table),
        Err(FieldError::Bad(column)) => Err(BatchError::BadRow {
            row: number,
            column,
        }),
        Err(FieldError::Memory) => Err(BatchError::Memory),
    }
}
