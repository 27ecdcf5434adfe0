// Names of tables, views and columns.
ghost use Rattle.std.specs.Prelude.{◌≡◌, IsTrue, IfOk, OnOk, false};
ghost use Rattle.mesa_columns.specs.Names.{is_name, is_name_byte as name_byte};
ghost use Rattle.std.specs.List.{list_all};

use mesa_key::{Items, TryCopy};
use std::alloc::{AllocError, Global};
use std::marker::Model;

/// A name of a table, a view or a column: 1 to 32 bytes of `a` to `z`, digits and `_`, the first a letter.
#[derive(Drop)]
pub struct Name {
    bytes: Items<u8>,
}

impl Model for Name {
    ghost use Rattle.std.specs.Prelude.{ℕ, List, IsTrue};
    ghost use Rattle.mesa_columns.specs.Names.{is_name};

    ghost Value = { List ℕ };

    ghost view = { λ name. name.bytes };

    ghost invariant = { λ name. IsTrue (is_name name.bytes) };
}

/// Why bytes are no name.
#[derive(Clone, Copy, Debug, PartialEq, Eq)]
pub enum NameError {
    /// The bytes break the rule of names.
    Bad,
    Memory,
}

impl Name {
    /// Whether these bytes are a name.
    pub fn allows(bytes: &[u8]) -> bool
        ensures { result ≡ is_name bytes.now }
    {
        match bytes {
            [] => false,
            [first, rest @ ..] => {
                first.is_ascii_lowercase() && are_name_bytes(rest) && rest.len() <= 31
            }
        }
    }

    /// The name of these bytes.
    pub fn read(alloc: Global, bytes: &[u8]) -> Result<Self, NameError>
        ensures read { IfOk result (λ name. name ≡ bytes.now) }
        ensures named { OnOk result (IsTrue (is_name bytes.now)) }
        ensures bad { result ≡ Err NameError.Bad → is_name bytes.now ≡ false }
    {
        if !Name::allows(bytes) {
            return Err(NameError::Bad);
        }
        match Items::from_bytes(alloc, bytes) {
            Ok(bytes) => Ok(Name { bytes }),
            Err(_) => Err(NameError::Memory),
        }
    }

    pub fn bytes(&self) -> &[u8]
        ensures same { result.now ≡ self.now }
        ensures named { IsTrue (is_name self.now) }
    {
        self.bytes.as_slice()
    }
}

impl TryCopy for Name {
    fn copy(&self) -> Result<Self, AllocError> {
        Ok(Name {
            bytes: self.bytes.copy()?,
        })
    }
}

fn are_name_bytes(bytes: &[u8]) -> bool
    ensures { result ≡ list_all name_byte bytes.now }
{
    bytes.iter().all(|byte| is_name_byte(*byte))
}

/// Whether a byte may stand in a name behind its first one.
pub fn is_name_byte(byte: u8) -> bool
    ensures { result ≡ name_byte byte }
{
    byte.is_ascii_lowercase() || byte.is_ascii_digit() || byte == b'_'
}
