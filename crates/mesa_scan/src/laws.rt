// What holds of all cut rows.
ghost use Rattle.mesa_scan.specs.Laws.{CutsFold, CutsNone, CutsWhole, FoldsJoin};

/// Rows may be cut before folding or after it, and what rising cuts divide is whole again where the parts stand one after the other.
pub fn cuts_join()
    ensures folds { CutsFold }
    ensures whole { CutsWhole }
    ensures none { CutsNone }
    ensures join { FoldsJoin }
{}
