// What holds of every query over a view, whichever function answers it.
ghost use Rattle.mesa_query.specs.Laws.{FoldsUngrouped};

/// Rows of a table may be folded under a view's keys without being grouped first.
pub fn views_fold_ungrouped()
    ensures { FoldsUngrouped }
{}
