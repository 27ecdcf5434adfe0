// A table of places and their names, and keys of it.
ghost use Rattle.std.specs.Prelude.{◌≡◌, [], ◌∷◌, IfOk, IsTrue};
ghost use Rattle.mesa_key.specs.declared.KeyType.TheVariants as types;
ghost use Rattle.mesa_key.specs.Spelling.{is_spelling};
ghost use Rattle.mesa_print.specs.mesa_columns.Columns.{kinds_of};

use crate::schema::columns::{key_columns, value_columns};
use mesa_key::{KeyText, encode_int, encode_text, reads_back};
use mesa_schema::Schema;
use std::alloc::{AllocError, Global};
use std::process::Abort;

/// The key columns `k int` and `name text`, the value columns `v sum` and `r replace`.
pub fn schema(rt: &impl Abort, alloc: Global) -> Schema
    ensures { kinds_of result ≡ types.Int ∷ types.Text ∷ [] }
{
    let keys = key_columns(rt, alloc, b"name");
    let values = value_columns(rt, alloc);
    match Schema::build(keys, values) {
        Ok(schema) => schema,
        Err(_) => panic!(rt; "no schema"),
    }
}

/// The bytes of a key.
pub fn key(rt: &impl Abort, alloc: Global, number: i64, text: &[u8]) -> Result<Vec<u8>, AllocError>
    ensures { IfOk result (λ key. IsTrue (is_spelling (types.Int ∷ types.Text ∷ []) key.items)) }
{
    reads_back();
    assert!(rt; KeyText::allows(text));
    let mut bytes = Vec::new(alloc);
    encode_int(number, &mut bytes)?;
    encode_text(text, &mut bytes)?;
    Ok(bytes)
}
