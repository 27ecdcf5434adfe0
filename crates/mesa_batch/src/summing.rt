// Which columns are sums.
ghost use Rattle.std.specs.Prelude.{◌≡◌, ◌<◌, ◌≤◌, count_by, length, map};
ghost use Rattle.mesa_schema.specs.mesa_columns.declared.columns.ValueColumn.{ValueColumn as Column};
ghost use Rattle.mesa_schema.specs.mesa_columns.Columns.{aggs_of};
ghost use Rattle.mesa_batch.specs.Totals.{is_sum as adds, sum_name, sum_places, sums_in};

use mesa_schema::{Name, Schema, ValueColumn};

/// How many of the columns are sums.
#[tactic(auto, using(crate::proofs::KeptTotals::counted))]
pub fn sums_among(columns: &[ValueColumn]) -> usize
    ensures sums { result ≡ sums_in (map (λ (c : Column). c.agg) columns.now) }
    ensures most { result ≤ length columns.now }
{
    count_sums(columns)
}

fn count_sums(columns: &[ValueColumn]) -> usize
    ensures count { result ≡ count_by (λ (c : Column). adds c.agg) columns.now }
    ensures most { result ≤ length columns.now }
{
    columns.iter().filter(|column| column.agg.is_sum()).count()
}

/// The name of a sum column, by its place among the sum columns, as `fits` gives it.
pub fn sum_column(schema: &Schema, place: usize) -> &Name
    requires { place < length (sum_places 0 (aggs_of schema.now)) }
    ensures { result.now ≡ sum_name schema.now place }
{
    let mut left = place;
    'columns: for column in schema.values() {
        if column.agg.is_sum() {
            if left == 0 {
                return &column.name;
            }
            left -= 1;
        }
    }
    unreachable!()
}
