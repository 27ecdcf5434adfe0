// Number words.
ghost use Rattle.std.specs.Prelude.{◌≡◌, ◌≤◌, IfOk};
ghost use Rattle.mesa_script.specs.Words.{limit_of, number_in as number_between};

use mesa_script::Reason;

/// The greatest number word that a record may have.
pub(crate) const MAX_NUMBER: u32 = 4_294_967_295;

/// The most parts into which a merge may be cut.
pub(crate) const MAX_PARTS: u32 = 8;

/// The number that a word of decimal digits spells, in a range whose ends are included.
pub fn number_in(low: u32, high: u32, word: &[u8]) -> Result<u32, Reason>
    ensures read { result ≡ number_between low high word.now }
    ensures between { IfOk result (λ number. (low ≤ number) × (number ≤ high)) }
{
    if word.is_empty() {
        return Err(Reason::Number);
    }
    let mut number = 0;
    'digits: for byte in word {
        if !byte.is_ascii_digit() {
            return Err(Reason::Number);
        }
        number = 10 * number + (*byte - b'0') as u64;
        if number > high as u64 {
            return Err(Reason::Number);
        }
    }
    if number < low as u64 {
        return Err(Reason::Number);
    }
    Ok(number as u32)
}

/// A page's limit, and 1,000 where none is given.
pub(crate) fn limit(word: &[u8]) -> Result<u32, Reason>
    ensures { result ≡ limit_of word.now }
{
    if word.is_empty() {
        return Ok(1000);
    }
    number_in(1, 10_000, word)
}
