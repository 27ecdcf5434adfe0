// The forms of words.
ghost use Rattle.std.specs.Prelude.{◌≡◌, ◌≢◌, IfOk, None, codes, false, map};
ghost use Rattle.std.specs.List.{list_any};
ghost use Rattle.clap.specs.Words.{first_value, found_of, subcommand_rows_of};
ghost use Rattle.mesa_parse.specs.Forms.{begins_hyphen, form_of, gen_of};
ghost use Rattle.mesa_parse.specs.Found.{digest_found, form_found, gen_found};

use crate::command::mesa_command;
use crate::number_in;
use clap::ArgMatches;
use clap::error::ErrorKind;
use mesa_columns::Words;
use mesa_list::Items;
use std::alloc::{AllocError, Global};

/// The greatest seed.
const MAX_SEED: u32 = 65_536;

/// The most versions that a script is generated with.
const MAX_VERSIONS: u32 = 20_000;

/// What the program is asked to do.
#[derive(Drop)]
pub enum Form {
    /// To run a script.
    Run,
    /// To check the store.
    Check,
    /// To run the script that a seed gives.
    Gen { seed: u32, versions: u32 },
    /// To print the digests of the relation of this name.
    Digest { relation: Words },
}

// A script to be generated, where both words are numbers in their ranges.
fn read_gen(seed: &str, versions: &str) -> Option<Form>
    ensures { result ≡ gen_of seed.now versions.now }
{
    let seed = number_in(0, MAX_SEED, seed.as_bytes()).ok()?;
    let versions = number_in(1, MAX_VERSIONS, versions.as_bytes()).ok()?;
    Some(Form::Gen { seed, versions })
}

// What the matches of `gen` say.
fn found_gen(found: &ArgMatches) -> Option<Form>
    ensures { result ≡ gen_found (first_value (found_of found.now) (codes "seed")) (first_value (found_of found.now) (codes "versions")) }
{
    match (found.get_str("seed"), found.get_str("versions")) {
        (Some(seed), Some(versions)) => read_gen(seed, versions),
        _ => None,
    }
}

// What the matches of `digest` say.
fn found_digest(alloc: Global, found: &ArgMatches) -> Result<Option<Form>, AllocError>
    ensures { IfOk result (λ form. form ≡ digest_found (first_value (found_of found.now) (codes "relation"))) }
{
    let Some(name) = found.get_str("relation") else {
        return Ok(None);
    };
    let relation = Items::from_bytes(alloc, name.as_bytes())?;
    Ok(Some(Form::Digest { relation }))
}

// The form that the matches of the command line say.
fn found_form(alloc: Global, matches: &ArgMatches) -> Result<Option<Form>, AllocError>
    ensures { IfOk result (λ form. form ≡ form_found (subcommand_rows_of matches.now)) }
{
    let Some((name, found)) = matches.subcommand() else {
        return Ok(None);
    };
    if name == "run" {
        Ok(Some(Form::Run))
    } else if name == "check" {
        Ok(Some(Form::Check))
    } else if name == "digest" {
        found_digest(alloc, found)
    } else {
        Ok(found_gen(found))
    }
}

// No form, where clap refuses words for anything but want of memory.
fn no_form(kind: ErrorKind) -> Result<Option<Form>, AllocError>
    ensures { IfOk result (λ form. (form ≡ None) × (kind ≢ ErrorKind.OutOfMemory)) }
{
    match kind {
        ErrorKind::OutOfMemory => Err(AllocError),
        _ => Ok(None),
    }
}

// Whether a word begins with a hyphen.
fn is_hyphened(word: &str) -> bool
    ensures { result ≡ begins_hyphen word.now }
{
    matches!(word.as_bytes(), [b'-', ..])
}

// Whether one of the words does.
fn has_hyphened(words: &[&str]) -> bool
    ensures { result ≡ list_any (λ word. begins_hyphen word.now) words.now }
{
    words.iter().any(|word| is_hyphened(word))
}

// The form of words that clap parses, none of which begins with a hyphen.
fn parsed_form(alloc: Global, words: &[&str]) -> Result<Option<Form>, AllocError>
    requires { list_any (λ word. begins_hyphen word.now) words.now ≡ false }
    ensures { IfOk result (λ form. form ≡ form_of (map (λ word. word.now) words.now)) }
{
    match mesa_command(alloc)?.try_get_matches_from(words) {
        Ok(matches) => found_form(alloc, &matches),
        Err(error) => no_form(error.kind()),
    }
}

/// The form of the words behind the program's name, if they have one. A word that begins with a
/// hyphen is refused before the command line is parsed.
pub fn read_form(alloc: Global, words: &[&str]) -> Result<Option<Form>, AllocError>
    ensures { IfOk result (λ form. form ≡ form_of (map (λ word. word.now) words.now)) }
{
    if has_hyphened(words) {
        return Ok(None);
    }
    parsed_form(alloc, words)
}
