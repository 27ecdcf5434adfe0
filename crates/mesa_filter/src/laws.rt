// What holds of all filtered rows, whichever function filtered them.
ghost use Rattle.mesa_filter.specs.Laws.{FiltersFolds};

/// Rows may be filtered before folding or after it.
pub fn filters_folds()
    ensures { FiltersFolds }
{}
