// What holds of every lifted row, recast and table, whichever function made them.
ghost use Rattle.mesa_schema.specs.Laws.{CarriesFolds, CarriesForm, ChangedColumns, ChangedLineages, KeepsForm, KeysGrow, LiftedFolds, LiftedForms, LiftedKeys, LiftedMore, LiftedNow, LiftedRise, LiftsFolds, NewLineages, RecastLineages, RecastsFold, RecastsGoOn, RecastsForm, RecastsRise, ViewedLineages, ViewsOutlast, ViewsOutlive};

/// Rows may be lifted before folding or after it, and lifted rows have the form of the later columns.
pub fn lifts_folds()
    ensures folds { LiftsFolds }
    ensures lifted_form { KeepsForm }
{}

/// What rows of an epoch are at present.
pub fn lifts_to_present()
    ensures folds { LiftedFolds }
    ensures form { LiftedForms }
    ensures keys { LiftedKeys }
    ensures longer { KeysGrow }
    ensures rise { LiftedRise }
    ensures now { LiftedNow }
    ensures more { LiftedMore }
{}

/// Tables follow the rules from their making on, through changes and when views are added.
pub fn tables_keep_rules()
    ensures made { NewLineages }
    ensures changed { ChangedLineages }
    ensures viewed { ViewedLineages }
    ensures columns { ChangedColumns }
{}

/// Views outlive the changes of their tables.
pub fn views_outlive()
    ensures { ViewsOutlive }
{}

/// Rows may be folded before a recast or after it; recast rows have the form of its columns, and their keys rise; and a table follows the rules through it. A recast that was allowed stays so while the table has its columns and its epoch, but for views that came since.
pub fn recasts_fold()
    ensures folds { RecastsFold }
    ensures form { RecastsForm }
    ensures rise { RecastsRise }
    ensures lineages { RecastLineages }
    ensures goes_on { RecastsGoOn }
{}

/// Views outlast a recast that keeps their columns.
pub fn views_outlast()
    ensures { ViewsOutlast }
{}

/// Rows may be carried through changes and recasts before folding or after it.
pub fn rows_are_carried()
    ensures folds { CarriesFolds }
    ensures form { CarriesForm }
{}
