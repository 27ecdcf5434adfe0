// What was loaded from one version to another: what is loaded stands by rising versions.
ghost use Rattle.std.specs.Prelude.{◌≡◌, ℕ};
ghost use Rattle.mesa_catalog_table.specs.Meaning.{AreLoaded};
ghost use Rattle.mesa_catalog_table.specs.Named.{through};
ghost use Rattle.mesa_pick_files.specs.Lent.{loaded_from};

use mesa_catalog_table::Loaded;

// What was loaded from a version on.
pub(crate) fn from_on(loaded: &[Loaded], from: u64) -> &[Loaded]
    requires { (start : ℕ) × (next : ℕ) × AreLoaded start next loaded.now }
    ensures { result.now ≡ loaded_from from loaded.now }
{
    let first = loaded.partition_point(|single| (single.version as u64) < from);
    &loaded[first..]
}

// What was loaded up to a version.
pub(crate) fn up_to(loaded: &[Loaded], to: u32) -> &[Loaded]
    requires { (start : ℕ) × (next : ℕ) × AreLoaded start next loaded.now }
    ensures { result.now ≡ through to loaded.now }
{
    let count = loaded.partition_point(|single| single.version <= to);
    &loaded[..count]
}
