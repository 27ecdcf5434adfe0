// Writing keys.
ghost use Rattle.std.specs.Prelude.{◌≡◌, ◌++◌, length, take, OnOk, OnErr};
ghost use Rattle.mesa_key.specs.declared.KeyValue.TheVariants as Value;
ghost use Rattle.mesa_key.specs.Spelling.{int_spelling, value_spelling, key_spelling};

use crate::{Key, KeyValue};
use std::alloc::AllocError;

/// Appends the bytes of a key: 8 for an int, and a text's bytes with a zero byte behind them.
pub fn encode(key: &Key, out: &mut Vec<u8>) -> Result<(), AllocError>
    ensures ok { OnOk result (out.new.items ≡ out.old.items ++ key_spelling key.now) }
    ensures err { OnErr result (out.new.items ≡ out.old.items) }
{
    let start = out.len();
    for value in key.as_slice() {
        if let Err(error) = push_value(value, out) {
            out.truncate(start);
            return Err(error);
        }
    }
    Ok(())
}

// Appends the bytes of a value; without memory a part of them may stand there.
fn push_value(value: &KeyValue, out: &mut Vec<u8>) -> Result<(), AllocError>
    ensures ok { OnOk result (out.new.items ≡ out.old.items ++ value_spelling value.now) }
    ensures kept { take (length out.old.items) out.new.items ≡ out.old.items }
{
    match value {
        KeyValue::Int(number) => encode_int(*number, out),
        KeyValue::Text(text) => encode_text(text.as_bytes(), out),
    }
}

/// Appends the bytes of an int column's value.
pub fn encode_int(number: i64, out: &mut Vec<u8>) -> Result<(), AllocError>
    ensures ok { OnOk result (out.new.items ≡ out.old.items ++ value_spelling (Value.Int number)) }
    ensures kept { take (length out.old.items) out.new.items ≡ out.old.items }
{
    out.extend_from_slice(&int_bytes(number))
}

/// Appends the bytes of a text column's value, which `KeyText` allows; without memory a part of them may stand there.
pub fn encode_text(text: &[u8], out: &mut Vec<u8>) -> Result<(), AllocError>
    ensures ok { OnOk result (out.new.items ≡ out.old.items ++ value_spelling (Value.Text text.now)) }
    ensures kept { take (length out.old.items) out.new.items ≡ out.old.items }
{
    out.extend_from_slice(text)?;
    out.push(0)?;
    Ok(())
}

// The two's complement of a number with its sign bit flipped, the highest byte first.
fn int_bytes(number: i64) -> [u8; 8]
    ensures { result ≡ int_spelling number }
{
    ((i128::from(number) + 0x8000_0000_0000_0000) as u64).to_be_bytes()
}
