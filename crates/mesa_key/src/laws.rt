// What holds of every key and its bytes, whichever function wrote or read them.
ghost use Rattle.std.specs.Prelude.{◌≡◌, ◌↔◌, ℕ, List, ◌++◌, IsTrue};
ghost use Rattle.mesa_key.specs.declared.KeyType.{KeyType as Kind};
ghost use Rattle.mesa_key.specs.declared.KeyValue.{KeyValue as Value};
ghost use Rattle.mesa_key.specs.Order.{byte_cmp, key_cmp};
ghost use Rattle.mesa_key.specs.Spelling.{AreBytes, IsKey, is_spelling, key_of, key_spelling};

/// The order of the bytes of two keys of the same types is the order of the keys.
pub fn orders_bytes_as_keys()
    ensures { (types : List Kind) (a b : List Value) → IsKey types a → IsKey types b → byte_cmp (key_spelling a) (key_spelling b) ≡ key_cmp a b }
{}

/// No spelling of a key of given types begins another one's: each key has one, and it ends where it ends.
pub fn spells_once()
    ensures { (types : List Kind) (a b : List Value) (more others : List ℕ) → IsKey types a → IsKey types b → key_spelling a ++ more ≡ key_spelling b ++ others → (a ≡ b) × (more ≡ others) }
{}

/// A key is read again from its spelling, whatever follows it.
pub fn reads_back()
    ensures read { (types : List Kind) (key : List Value) (more : List ℕ) → IsKey types key → key_of types (key_spelling key ++ more) ≡ key }
    ensures passes { (types : List Kind) (key : List Value) → IsKey types key → IsTrue (is_spelling types (key_spelling key)) }
{}

/// What passes for a spelling spells a key of these types.
pub fn reads_spellings()
    ensures key { (types : List Kind) (bytes : List ℕ) → AreBytes bytes → IsTrue (is_spelling types bytes) → IsKey types (key_of types bytes) }
    ensures spelled { (types : List Kind) (bytes : List ℕ) → AreBytes bytes → IsTrue (is_spelling types bytes) → key_spelling (key_of types bytes) ≡ bytes }
{}
