// What every catalogue keeps.
ghost use Rattle.mesa_store_spec.specs.Catalog.{Catalog, applied};
ghost use Rattle.mesa_store_spec.specs.Fitting.{fits};
ghost use Rattle.mesa_store_spec.specs.Journaled.{catalog};
ghost use Rattle.mesa_commit.specs.mesa_disk.declared.area.Area.{Area as AreaOf};
ghost use Rattle.mesa_store_spec.specs.Shape.{IsCatalog};
ghost use Rattle.mesa_delta_format.specs.mesa_key.Spelling.{AreBytes};
ghost use Rattle.mesa_record.specs.declared.record.Record.{Record as RecordOf};
ghost use Rattle.mesa_record.specs.Reading.{record_at};
ghost use Rattle.mesa_record.specs.Rules.{IsTyped};
ghost use Rattle.std.specs.List.{AllByRecursion};
ghost use Rattle.std.specs.Prelude.{◌≡◌, ◌++◌, ◌∷◌, ℕ, List, Ok, Some, [], true};

/// A record that fits keeps what catalogues keep.
pub fn records_keep_shape()
    ensures { (c : Catalog) (r : RecordOf) → IsCatalog c → IsTyped r → fits c r ≡ true → IsCatalog (applied c r) }
{}

/// Every catalogue that bodies of bytes make keeps it.
pub fn catalogs_are_shaped()
    ensures { (area : AreaOf) (bodies : List (List ℕ)) (c : Catalog) → AllByRecursion AreBytes bodies → catalog area bodies ≡ Some c → IsCatalog c }
{}

/// A body that spells a record which fits makes the catalogue after it.
pub fn catalogs_go_on()
    ensures { (area : AreaOf) (bodies : List (List ℕ)) (body : List ℕ) (c : Catalog) (r : RecordOf) → catalog area bodies ≡ Some c → record_at body ≡ Ok r → fits c r ≡ true
        → catalog area (bodies ++ body ∷ []) ≡ Some (applied c r) }
{}
