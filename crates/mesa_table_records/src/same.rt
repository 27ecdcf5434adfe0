// Whether references name the same files. Takes no memory.
ghost use Rattle.std.specs.Prelude.{◌≡◌, zip};
ghost use Rattle.std.specs.List.{list_all};
ghost use Rattle.mesa_catalog_table.specs.mesa_record.declared.record.ViewRef.{ViewRef as Seen};
ghost use Rattle.mesa_catalog_table.specs.mesa_store_spec.SameFiles.{same_contents as match_contents, same_counts as match_counts, same_format as match_formats, same_ref as match_refs, same_view as match_view, same_views as match_views};

use mesa_catalog_table::ViewRef;
use mesa_file::FileRef;
use mesa_key::Format;

// Whether these are the same view files, in the same order.
pub(crate) fn same_views(a: &[ViewRef], b: &[ViewRef]) -> bool
    ensures { result ≡ match_views a.now b.now }
{
    a.len() == b.len() && each_same(a, b)
}

fn each_same(a: &[ViewRef], b: &[ViewRef]) -> bool
    ensures { result ≡ list_all (λ (p : Seen × Seen). match_view p.0 p.1) (zip a.now b.now) }
{
    a.iter().zip(b).all(|(one, other)| same_view(one, other))
}

fn same_view(a: &ViewRef, b: &ViewRef) -> bool
    ensures { result ≡ match_view a.now b.now }
{
    a.view == b.view && same_ref(&a.file, &b.file)
}

fn same_ref(a: &FileRef, b: &FileRef) -> bool
    ensures { result ≡ match_refs a.now b.now }
{
    same_counts(a, b) && same_contents(a, b)
}

// The same id, lengths and counts.
fn same_counts(a: &FileRef, b: &FileRef) -> bool
    ensures { result ≡ match_counts a.now b.now }
{
    same_format(a.format, b.format)
        && a.id.number() == b.id.number()
        && a.len == b.len
        && a.rows == b.rows
        && a.blocks == b.blocks
}

fn same_format(a: Format, b: Format) -> bool
    ensures { result ≡ match_formats a b }
{
    match a {
        Format::One => match b {
            Format::One => true,
            Format::Two => false,
        },
        Format::Two => match b {
            Format::One => false,
            Format::Two => true,
        },
    }
}

// The same keys, aggregates and digest.
fn same_contents(a: &FileRef, b: &FileRef) -> bool
    ensures { result ≡ match_contents a.now b.now }
{
    a.first.as_slice() == b.first.as_slice()
        && a.last.as_slice() == b.last.as_slice()
        && a.aggregates.as_slice() == b.aggregates.as_slice()
        && a.digest == b.digest
}
