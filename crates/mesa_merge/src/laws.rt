// What holds of every merge.
ghost use Rattle.std.specs.Prelude.{◌≡◌, List};
ghost use Rattle.mesa_scan.specs.mesa_columns.declared.rows.Row.{Row as AnyRow};
ghost use Rattle.mesa_merge.specs.Inputs.{AreAll, AreTold, Known as AnyKnown, lifted_parts};

/// Where bytes are told, all that inputs have given is the rows of those files, lifted.
pub fn all_are_told()
    ensures { (knowns : List AnyKnown) (givens contents : List (List AnyRow)) → AreAll knowns givens → AreTold knowns contents → givens ≡ lifted_parts knowns contents }
{}
