// What holds of every batch, whichever function made it.
ghost use Rattle.mesa_batch.specs.Laws.{GoesRowByRow, KeepsForms, TotalsLast};

/// The rows of a batch have the form of their tables' columns, as a load gives them and by their keys.
pub fn keeps_forms()
    ensures { KeepsForms }
{}

/// A load's rows may be read one after another.
pub fn goes_row_by_row()
    ensures { GoesRowByRow }
{}

/// Totals that bound those of rows go on to do so through a change of their columns.
pub fn totals_last()
    ensures { TotalsLast }
{}
