// The table into which rows are loaded.
use crate::columns::{name, schema};
use crate::failure::Failure;
use mesa_batch::{Glance, Glanced};
use mesa_schema::{Evolving, MAX_VIEWS, Name};
use std::alloc::Global;
use std::sync::Arc;

// A list of one name.
fn one_name(alloc: Global, text: &str) -> Result<Vec<Name>, Failure> {
    let name = name(alloc, text)?;
    Ok(vec![in alloc; name]?)
}

// Adds the view of one key column, with the amounts.
fn add_view(alloc: Global, table: &mut Evolving, view: &str, column: &str) -> Result<(), Failure> {
    if usize::from(table.views()) >= MAX_VIEWS {
        return Err(Failure::Refused);
    }
    let view = name(alloc, view)?;
    let keys = one_name(alloc, column)?;
    let values = one_name(alloc, "amount")?;
    table.add_view(view, keys, values).or(Err(Failure::Refused))
}

// The columns of the rows, and two views.
fn table(alloc: Global) -> Result<Evolving, Failure> {
    let mut table = Evolving::new(alloc, schema(alloc)?);
    add_view(alloc, &mut table, "days", "day")?;
    add_view(alloc, &mut table, "items", "item")?;
    Ok(table)
}

fn glanced(alloc: Global) -> Result<Glanced, Failure> {
    let name = name(alloc, "sales")?;
    let evolving = Arc::new(alloc, table(alloc)?)?;
    Ok(Glanced { name, evolving })
}

/// What a load sees where this table is there.
pub fn glance(alloc: Global) -> Result<Glance, Failure> {
    let glanced = glanced(alloc)?;
    let tables = vec![in alloc; glanced]?;
    Ok(Glance::new(alloc, 0, tables)?)
}
