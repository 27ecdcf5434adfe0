// Names and columns from words.
ghost use Rattle.std.specs.Prelude.{◌≡◌, [], ◌∷◌, map};
ghost use Rattle.mesa_key.specs.declared.KeyType.TheVariants as types;
ghost use Rattle.mesa_print.specs.mesa_columns.declared.columns.KeyColumn.{KeyColumn as Column};

use mesa_key::KeyType;
use mesa_schema::{KeyColumn, Name, ValueColumn};
use mesa_value::Agg;
use std::alloc::Global;
use std::process::Abort;

/// A name from its text.
pub fn name(rt: &impl Abort, alloc: Global, text: &[u8]) -> Name {
    Name::read(alloc, text).expect(rt, "a name")
}

/// The names that stand between semicolons; none in an empty text.
pub fn names(rt: &impl Abort, alloc: Global, text: &str) -> Vec<Name> {
    let mut names = Vec::new(alloc);
    if !text.is_empty() {
        for part in text.as_bytes().split(|b| *b == b';') {
            names.push(name(rt, alloc, part)).expect(rt, "memory");
        }
    }
    names
}

fn key(name: Name) -> KeyColumn {
    let kind = KeyType::Text;
    KeyColumn { name, kind }
}

/// Text columns of these names.
pub fn keys(rt: &impl Abort, alloc: Global, text: &str) -> Vec<KeyColumn> {
    let mut columns = Vec::new(alloc);
    for name in names(rt, alloc, text) {
        columns.push(key(name)).expect(rt, "memory");
    }
    columns
}

fn value(name: Name) -> ValueColumn {
    let agg = Agg::Sum;
    ValueColumn { name, agg }
}

/// Sum columns of these names.
pub fn values(rt: &impl Abort, alloc: Global, text: &str) -> Vec<ValueColumn> {
    let mut columns = Vec::new(alloc);
    for name in names(rt, alloc, text) {
        columns.push(value(name)).expect(rt, "memory");
    }
    columns
}

/// The key columns `k int` and, of another name, a text.
pub fn key_columns(rt: &impl Abort, alloc: Global, text: &[u8]) -> Vec<KeyColumn>
    ensures { map (λ (c : Column). c.kind) result.items ≡ types.Int ∷ types.Text ∷ [] }
{
    let number = KeyColumn {
        name: name(rt, alloc, b"k"),
        kind: KeyType::Int,
    };
    let text = KeyColumn {
        name: name(rt, alloc, text),
        kind: KeyType::Text,
    };
    vec![in alloc; number, text].expect(rt, "memory")
}

/// The value columns `v sum` and `r replace`.
pub fn value_columns(rt: &impl Abort, alloc: Global) -> Vec<ValueColumn> {
    let sum = ValueColumn {
        name: name(rt, alloc, b"v"),
        agg: Agg::Sum,
    };
    let replace = ValueColumn {
        name: name(rt, alloc, b"r"),
        agg: Agg::Replace,
    };
    vec![in alloc; sum, replace].expect(rt, "memory")
}
