// What names a run.
ghost use Rattle.std.specs.Prelude.{ℕ, List, Option, None, [], ◌≡◌, refl};
ghost use Rattle.mesa_invariant_spec.specs.mesa_history_spec.Run.{State, nothing_there};
ghost use Rattle.mesa_model.specs.declared.commands.Script.{Script as AnyScript};
ghost use Rattle.mesa_invariant_spec.specs.mesa_history_spec.Bare.{bare_state};
ghost use Rattle.mesa_invariant_spec.specs.mesa_history_spec.Rows.{Rows, no_rows};
ghost use Rattle.mesa_engine.specs.Vault.{Origin};

use std::marker::Brand;

/// A run by its name: the type of all that takes part in one run, so that what one part tells of it
/// holds of the others. It is chosen where a run begins, by the values that are there.
pub trait Naming {
    /// Its script.
    ghost script: { AnyScript };

    /// Where it starts, by the rows of the files that are there when it begins.
    ghost start: { Rows → State };

    /// Whatever the rows, the start has one projection.
    ghost alike: { (rows : Rows) → bare_state (start no_rows) ≡ bare_state (start rows) };

    /// Whether the store was sound when the run began, and its files had these rows.
    ghost sound: { Rows → Type 0 };

    /// Its number, what had been written of each table by then, and how often tables, views and columns had changed.
    ghost origin: { Rows → Origin };

    /// The disk's clock when the run began.
    ghost since: { ℕ };

    /// Both counts of the disk's faults then, together.
    ghost counted: { ℕ };

    /// How many turns the run may have.
    ghost room: { ℕ };

    /// What the sink had been given then, if that is known.
    ghost at_start: { Option (List ℕ) };

    /// Its count of faults then.
    ghost sink_faults: { ℕ };
}

impl Naming for Brand {
    ghost script = { record { lease = 0; sessions = [] } };

    ghost start = { λ rows. nothing_there (record { lease = 0; sessions = [] }) };

    ghost alike = { λ rows. refl };

    ghost sound = { λ rows. ⊥ };

    ghost origin = { λ rows. record { run = 0; found = λ table. []; generation = 0 } };

    ghost since = { 0 };

    ghost counted = { 0 };

    ghost room = { 0 };

    ghost at_start = { None };

    ghost sink_faults = { 0 };
}
