// Taking in what a batch brings.
ghost use Rattle.std.specs.Prelude.{◌≡◌, ◌≢◌, ◌+◌, ◌<◌, ℕ, find, length, map, position, slice_get, IfSome};
ghost use Rattle.std.specs.List.{AllByRecursion};
ghost use Rattle.mesa_table_records.specs.mesa_store_spec.Catalog.{metas_loaded};
ghost use Rattle.mesa_table_records.specs.declared.ready.ReadyPart.{ReadyPart as Piece};
ghost use Rattle.mesa_table_records.specs.mesa_catalog_table.Meaning.{IsTable, meta_of};
ghost use Rattle.mesa_table_records.specs.mesa_catalog_table.Room.{HasSpare};
ghost use Rattle.mesa_table_records.specs.Readied.{IsPartOf, is_part_of, part_in};

use mesa_table_records::{ReadyPart, Table, load_part};

// Puts what a version brings into the tables: each looks for its part, which is the first that is left.
pub(super) fn load(tables: &mut [Table], version: u32, mut parts: Vec<ReadyPart>)
    requires tables { AllByRecursion (IsTable version) tables.old }
    requires spare { AllByRecursion HasSpare tables.old }
    requires parts { AllByRecursion (λ (p : Piece). IfSome (slice_get tables.old p.table) (λ t. IsPartOf t p)) parts.items }
    ensures loaded { map (meta_of (version + 1)) tables.new ≡ metas_loaded (map part_in parts.items) 0 (map (meta_of version) tables.old) }
    ensures tables { AllByRecursion (IsTable (version + 1)) tables.new }
{
    for (number, table) in tables.iter_mut().enumerate() {
        let part = take_part(&mut parts, number);
        load_part(table, version, part);
    }
}

// Takes out what a batch brings to the table of a number.
fn take_part(parts: &mut Vec<ReadyPart>, number: usize) -> Option<ReadyPart>
    ensures taken { result ≡ find (is_part_of number) parts.old.items }
    ensures others { (m : ℕ) → m ≢ number → find (is_part_of m) parts.new.items ≡ find (is_part_of m) parts.old.items }
{
    match place_of_part(parts, number) {
        None => None,
        Some(place) => Some(parts.remove(place)),
    }
}

// The place of the first part of the table of a number.
fn place_of_part(parts: &[ReadyPart], number: usize) -> Option<usize>
    ensures within { IfSome result (λ place. place < length parts.now) }
    ensures place { result ≡ position (is_part_of number) parts.now }
{
    parts.iter().position(|part| part.table as usize == number)
}
