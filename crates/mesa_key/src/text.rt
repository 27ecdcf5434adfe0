// The values of text key columns.
ghost use Rattle.std.specs.Prelude.{◌≡◌, ◌==◌, IsTrue};
ghost use Rattle.std.specs.List.{list_any};
ghost use Rattle.std.specs.Str.{is_utf8 as utf8_test};
ghost use Rattle.mesa_key.specs.Text.{is_key_text};

use mesa_value::{Items, TryCopy};
use std::alloc::AllocError;
use std::marker::Model;

/// The value of a text key column: UTF-8 of 0 to 255 bytes, without U+0000.
#[derive(Drop)]
pub struct KeyText {
    bytes: Items<u8>,
}

impl Model for KeyText {
    ghost use Rattle.std.specs.Prelude.{ℕ, List, IsTrue};
    ghost use Rattle.mesa_key.specs.Text.{is_key_text};

    ghost Value = { List ℕ };

    ghost view = { λ t. t.bytes };

    ghost invariant = { λ t. IsTrue (is_key_text t.bytes) };
}

impl KeyText {
    /// Whether these bytes are a text key column's value.
    pub fn allows(bytes: &[u8]) -> bool
        ensures { result ≡ is_key_text bytes.now }
    {
        bytes.len() <= 255 && !has_zero(bytes) && is_utf8(bytes)
    }

    /// The text of these bytes; none is copied.
    pub fn new(bytes: Items<u8>) -> Self
        requires { IsTrue (is_key_text bytes) }
        ensures { result ≡ bytes }
    {
        KeyText { bytes }
    }

    pub fn as_bytes(&self) -> &[u8]
        ensures bytes { result.now ≡ self.now }
        ensures text { IsTrue (is_key_text self.now) }
    {
        self.bytes.as_slice()
    }
}

impl TryCopy for KeyText {
    fn copy(&self) -> Result<Self, AllocError> {
        Ok(KeyText {
            bytes: self.bytes.copy()?,
        })
    }
}

fn has_zero(bytes: &[u8]) -> bool
    ensures { result ≡ list_any (λ b. b == 0) bytes.now }
{
    bytes.iter().any(|b| *b == 0)
}

/// Whether bytes are UTF-8.
pub(crate) fn is_utf8(bytes: &[u8]) -> bool
    ensures { result ≡ utf8_test bytes.now }
{
    str::from_utf8(bytes).is_ok()
}
