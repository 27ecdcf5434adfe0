ghost use Rattle.mesa_file_records.specs.Batches.{KeepsTotals};

/// The rows of a batch have the same totals once they stand by their keys.
pub fn totals_stay()
    ensures { KeepsTotals }
{}
