// The lines of a text.
ghost use Rattle.std.specs.Prelude.{◌≡◌};
ghost use Rattle.mesa_generate.specs.Lines as spec;

/// A text behind so many of its lines; nothing where it has no more.
pub(crate) fn behind_lines(text: &[u8], lines: u64) -> &[u8]
    ensures { result.now ≡ spec.behind_lines lines text.now }
{
    let mut left = lines;
    let mut rest = text;
    'bytes: while left > 0 {
        let Some((first, more)) = rest.split_first() else {
            return rest;
        };
        if *first == b'\n' {
            left -= 1;
        }
        rest = more;
    }
    rest
}
