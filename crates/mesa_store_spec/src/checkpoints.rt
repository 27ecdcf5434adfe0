// Catalogues and their checkpoints.
ghost use Rattle.mesa_store_spec.specs.Catalog.{Catalog};
ghost use Rattle.mesa_store_spec.specs.Checkpoint.{checkpoint_body, checkpoint_of, stated};
ghost use Rattle.mesa_store_spec.specs.CheckpointFits.{checkpoint_fits, number_fits};
ghost use Rattle.mesa_store_spec.specs.Journaled.{catalog};
ghost use Rattle.mesa_commit.specs.mesa_disk.declared.area.Area.{Area as AreaOf};
ghost use Rattle.mesa_commit.specs.mesa_journal.Areas.{Leads, number_of, other_of};
ghost use Rattle.mesa_delta_format.specs.mesa_key.Spelling.{AreBytes};
ghost use Rattle.std.specs.List.{AllByRecursion};
ghost use Rattle.std.specs.Prelude.{◌≡◌, ◌+◌, ◌<◌, ◌^◌, ℕ, List, [], ◌∷◌, Some, true};

/// Of every catalogue that bodies of bytes make, the checkpoint states it and fits, with a number that
/// its area takes.
pub fn catalogs_are_stated()
    ensures states { (area : AreaOf) (bodies : List (List ℕ)) (c : Catalog) (number : ℕ) → AllByRecursion AreBytes bodies → catalog area bodies ≡ Some c → stated (checkpoint_of number c) ≡ c }
    ensures fits { (area other : AreaOf) (bodies : List (List ℕ)) (c : Catalog) (number : ℕ) → AllByRecursion AreBytes bodies → catalog area bodies ≡ Some c → number_fits other number ≡ true
        → checkpoint_fits other (checkpoint_of number c) ≡ true }

    // With the next number its body states the catalogue as the first of the other area, which is the live one then.
    ensures body { (area : AreaOf) (bodies : List (List ℕ)) (c : Catalog) → AllByRecursion AreBytes bodies → catalog area bodies ≡ Some c → number_of bodies + 1 < 2 ^ 32
        → catalog (other_of area) (checkpoint_body (checkpoint_of (number_of bodies + 1) c) ∷ []) ≡ Some c }
    ensures leads { (area : AreaOf) (bodies : List (List ℕ)) (c : Catalog) → AllByRecursion AreBytes bodies → catalog area bodies ≡ Some c → number_of bodies + 1 < 2 ^ 32
        → Leads (other_of area) (checkpoint_body (checkpoint_of (number_of bodies + 1) c) ∷ []) bodies }
{}
