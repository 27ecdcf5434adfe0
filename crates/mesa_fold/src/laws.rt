// What holds of every fold and grouping of rows, whichever function made them.
ghost use Rattle.mesa_fold.specs.Laws.{FiltersFold, FoldsForm, FoldsFull, FoldsRise, GroupsFolds, GroupsForm, GroupsRise, GroupsWhole, GroupsWholeFolds, PutsGiven, PutsOne, Refolds, SameFolds};

/// Parts that stand one after the other may be folded first.
pub fn folds_again()
    ensures { Refolds }
{}

/// What a fold's rows are: they depend on the values at each key alone, their keys rise, and they have a value for each column.
pub fn folds_by_key()
    ensures same { SameFolds }
    ensures rise { FoldsRise }
    ensures full { FoldsFull }
    ensures filtered { FiltersFold }
{}

/// A fold of rows of one form has that form.
pub fn folds_keep_form()
    ensures { FoldsForm }
{}

/// What a row more makes of a fold.
pub fn folds_go_on()
    ensures one { PutsOne }
    ensures given { PutsGiven }
{}

/// Rows may be folded before grouping or after it, where none of the value columns is a replace column.
pub fn groups_folds()
    ensures { GroupsFolds }
{}

/// Where all key columns are group columns, a group has one key, and rows may be folded before grouping or after it whatever their aggregations.
pub fn groups_whole()
    ensures keys { GroupsWhole }
    ensures folds { GroupsWholeFolds }
{}

/// What grouped rows are: their keys rise, and they have the form of the columns that they are grouped to.
pub fn groups_rise()
    ensures rise { GroupsRise }
    ensures form { GroupsForm }
{}
