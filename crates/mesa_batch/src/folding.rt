// What holds of every fold, whichever function made it.
ghost use Rattle.mesa_batch.specs.Bound.{FoldsTotals, TotalsKept, TotalsOutlast};

/// The absolute totals of a fold are at most those of its rows.
pub fn folds_totals()
    ensures { FoldsTotals }
{}

/// Totals that bound the rows of a table bound them once the table is recast.
pub fn totals_outlast()
    ensures bound { TotalsOutlast }
    ensures kept { TotalsKept }
{}
