// Lists of bytes split at a separator.
ghost use Rattle.std.specs.Prelude.{◌≡◌, ◌==◌, ◌<◌, ◌∷◌, [], length, position, IfSome, MatchOption};
ghost use Rattle.mesa_list.specs.Split.{entries_of, split_at};

use std::marker::Model;

/// The parts of a list of bytes between separators that are still to be taken, lent.
#[derive(Drop)]
pub struct Parts<'a> {
    separator: u8,
    rest: Option<&'a [u8]>,
}

impl<'a> Model for Parts<'a> {
    ghost use Rattle.std.specs.Prelude.{ℕ, List};
    ghost use Rattle.mesa_list.specs.Split.{parts_left};
    ghost use Rattle.std.specs.Option.{option_copied};

    ghost Value = { List (List ℕ) };

    ghost view = { λ p. parts_left p.separator (option_copied p.rest) };
}

impl<'a> Parts<'a> {
    /// The parts between the separators: one more than there are separators.
    pub fn of(separator: u8, bytes: &'a [u8]) -> Self
        ensures { result ≡ split_at separator bytes.now }
    {
        Parts {
            separator,
            rest: Some(bytes),
        }
    }

    /// The entries of a list field, which `;` separates: none where it is empty.
    pub fn entries(field: &'a [u8]) -> Self
        ensures { result ≡ entries_of field.now }
    {
        let rest = if field.is_empty() { None } else { Some(field) };
        Parts {
            separator: b';',
            rest,
        }
    }

    /// Takes the next part, if one is left.
    pub fn take_next(&mut self) -> Option<&'a [u8]>
        ensures { MatchOption result (self.old ≡ []) (λ part. self.old ≡ part.now ∷ self.new) }
    {
        let rest = self.rest?;
        match first_part(self.separator, rest) {
            Some((part, after)) => {
                self.rest = Some(after);
                Some(part)
            }
            None => {
                self.rest = None;
                Some(rest)
            }
        }
    }
}

// The part before the first separator, and what stands behind it.
fn first_part(separator: u8, bytes: &[u8]) -> Option<(&[u8], &[u8])>
    ensures { MatchOption result (split_at separator bytes.now ≡ bytes.now ∷ []) (λ found. split_at separator bytes.now ≡ found.0.now ∷ split_at separator found.1.now) }
{
    let Some(end) = place_of_byte(separator, bytes) else {
        return None;
    };
    Some((&bytes[..end], &bytes[end + 1..]))
}

/// The place of the first of these bytes that equals one.
pub fn place_of_byte(byte: u8, bytes: &[u8]) -> Option<usize>
    ensures within { IfSome result (λ place. place < length bytes.now) }
    ensures place { result ≡ position (λ b. b == byte) bytes.now }
{
    bytes.iter().position(|b| *b == byte)
}
