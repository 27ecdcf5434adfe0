//! Further orders of tables: a view with all of its table's key columns has the table's rows in an order of its own, and a query of the table may be answered by it.
#![tactic(auto)]

mod choosing;
mod laws;
mod marking;
mod moving;
mod scoring;
mod telling;

pub use choosing::choose;
pub use laws::further_orders_answer;
pub use moving::through;
pub use telling::order_told;
