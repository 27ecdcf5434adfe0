// Which merged ranges a table allows. Takes no memory.
ghost use Rattle.std.specs.Prelude.{◌≡◌, ◌≤◌, ℕ};
ghost use Rattle.mesa_catalog_table.specs.mesa_store_spec.Catalog.{ranges_of};
ghost use Rattle.mesa_catalog_table.specs.mesa_store_spec.Fitting.{may_be_base as is_base_work, may_be_cumulative as is_cumulative_work, files_fit_if_any};
ghost use Rattle.mesa_schema.specs.Changes.{epoch_of};
ghost use Rattle.mesa_catalog_table.specs.Meaning.{IsTable, meta_of, widths_of};

use mesa_catalog_table::{Files, Table, counts_files};

/// Whether files of an epoch, if there are any, have an aggregate for each value column.
pub fn counts_files_if_any(t: &Table, epoch: u32, files: &Option<Files>) -> bool
    requires widths { t.now.widths ≡ widths_of t.now.evolving.value }
    requires epoch { epoch ≤ epoch_of t.now.evolving.value }
    ensures { result ≡ files_fit_if_any t.now.evolving.value epoch files.now }
{
    match files {
        None => true,
        Some(files) => counts_files(&t.evolving, t.widths.as_slice(), epoch, files),
    }
}

/// Whether work may give a base to this version: it is behind the present base, not the first version, and at most the table's oldest.
pub fn may_be_base(t: &Table, from: u32, to: u32) -> bool
    ensures { (next : ℕ) → result ≡ is_base_work (ranges_of (meta_of next t.now)) t.now.oldest from to }
{
    let start = t.start();
    from == 0 && to >= 1 && start <= to as u64 && to <= t.oldest
}

/// Whether work may give this cumulative: it is the ten behind those that are there.
pub fn may_be_cumulative(t: &Table, next: u32, from: u32, to: u32) -> bool
    requires { IsTable next t.now }
    ensures { result ≡ is_cumulative_work (ranges_of (meta_of next t.now)) next from to }
{
    let start = t.start();
    if from as u64 != start {
        return false;
    }
    let end = start + 10 * t.cumulatives.len() as u64 + 9;
    end < next as u64 && end == to as u64
}
