// What holds of every record, whichever function wrote or read it.
ghost use Rattle.std.specs.Prelude.{◌≡◌, ℕ, List, Ok};
ghost use Rattle.mesa_record_fields.specs.mesa_key.Spelling.{AreBytes};
ghost use Rattle.mesa_record.specs.declared.record.Record.{Record as AnyRecord};
ghost use Rattle.mesa_record.specs.Editions.{IsSpelled};
ghost use Rattle.mesa_record.specs.Reading.{record_at};
ghost use Rattle.mesa_record.specs.Rules.{FitsIn, IsRecord};
ghost use Rattle.mesa_record_fields.specs.declared.edition.Edition.{Edition as AnyEdition};
ghost use Rattle.mesa_record.specs.Spelling.{spelled_in};

/// A record is read again from its bytes, in each edition in which it has room.
pub fn reads_records()
    ensures { (edition : AnyEdition) (r : AnyRecord) → IsRecord r → FitsIn edition r → record_at (spelled_in edition r) ≡ Ok r }
{}

/// What is read is a record, and the bytes are its spelling in one of the editions: in each it has one.
pub fn spells_records()
    ensures sound { (bytes : List ℕ) (r : AnyRecord) → AreBytes bytes → record_at bytes ≡ Ok r → IsRecord r }
    ensures spelled { (bytes : List ℕ) (r : AnyRecord) → AreBytes bytes → record_at bytes ≡ Ok r → IsSpelled r bytes }
{}
