// The words for versions.
ghost use Rattle.std.specs.Prelude.{◌≡◌, ◌&&◌, IfSome, drop, is_some, nat_lt, length};
ghost use Rattle.std.specs.List.{list_all};
ghost use Rattle.mesa_columns.specs.Names.{is_digit};
ghost use Rattle.mesa_script.specs.Records.{asks_pin as begins_pin};
ghost use Rattle.mesa_script.specs.Words.{max_number, number_in as number_between, version_of};

use crate::numbers::{MAX_NUMBER, number_in};
use mesa_filter::VersionWord;
use mesa_script::Reason;

// What stands behind the beginning of a pin's version, if a word begins so.
fn behind_pin(word: &[u8]) -> Option<&[u8]>
    ensures begins { is_some result ≡ begins_pin word.now }
    ensures rest { IfSome result (λ rest. rest.now ≡ drop 4 word.now) }
{
    let end = word.len().min(4);
    if &word[..end] == b"pin:".as_slice() {
        Some(&word[end..])
    } else {
        None
    }
}

fn all_digits(word: &[u8]) -> bool
    ensures { result ≡ list_all is_digit word.now }
{
    word.iter().all(|byte| byte.is_ascii_digit())
}

// Whether a word is one or more digits.
fn are_digits(word: &[u8]) -> bool
    ensures { result ≡ (nat_lt 0 (length word.now) && list_all is_digit word.now) }
{
    !word.is_empty() && all_digits(word)
}

// A number as a version.
fn number(word: &[u8]) -> Result<u32, Reason>
    ensures { result ≡ number_between 0 max_number word.now }
{
    number_in(0, MAX_NUMBER, word)
}

/// The version that a word stands for: the newest one, a number, or the version of a pin where
/// the record may name one.
pub(crate) fn version(may_pin: bool, word: &[u8]) -> Result<VersionWord, Reason>
    ensures { result ≡ version_of may_pin word.now }
{
    if word.is_empty() || word == b"latest".as_slice() {
        return Ok(VersionWord::Latest);
    }
    if are_digits(word) {
        return match number(word) {
            Ok(version) => Ok(VersionWord::At(version)),
            Err(reason) => Err(reason),
        };
    }
    let Some(token) = behind_pin(word) else {
        return Err(Reason::Word);
    };
    if !are_digits(token) || !may_pin {
        return Err(Reason::Word);
    }
    match number(token) {
        Ok(token) => Ok(VersionWord::Pin(token)),
        Err(reason) => Err(reason),
    }
}
