// What became of parts that were merged.
ghost use Rattle.std.specs.Prelude.{◌≡◌, ◌<◌, [], length, true, false, IfNone, IfSome, Err};
ghost use Rattle.std.specs.List.{AllByRecursion};
ghost use Rattle.mesa_delta.specs.declared.error.FileError.TheVariants as file_error;
ghost use Rattle.mesa_split.specs.Parts.{gained, joined};
ghost use Rattle.mesa_split.specs.Split.{IsFailureOf, IsGained, IsNotBy, IsSomeBy};

use crate::flat::FlatRows;
use mesa_delta::FileError;

/// Why not all parts were merged: a failed read where there is one, since its reader has counted it, and else the first part's error.
pub(crate) fn failure(parts: &[Result<FlatRows, FileError>]) -> Option<FileError>
    ensures { IsFailureOf parts.now result }
{
    if has_failed_read(parts) {
        return Some(FileError::Read);
    }
    first_error(parts)
}

fn has_failed_read(parts: &[Result<FlatRows, FileError>]) -> bool
    ensures some { result ≡ true → IsSomeBy file_error.Read parts.now }
    ensures none { result ≡ false → AllByRecursion (IsNotBy file_error.Read) parts.now }
{
    'parts: for part in parts {
        if is_failed_read(part) {
            return true;
        }
    }
    false
}

fn is_failed_read(part: &Result<FlatRows, FileError>) -> bool
    ensures some { result ≡ true → part.now ≡ Err file_error.Read }
    ensures none { result ≡ false → IsNotBy file_error.Read part.now }
{
    match part {
        Ok(_) => false,
        Err(FileError::Read) => true,
        Err(FileError::Damaged(_)) => false,
        Err(FileError::Memory) => false,
    }
}

// The error of the first part that has one.
fn first_error(parts: &[Result<FlatRows, FileError>]) -> Option<FileError>
    ensures some { IfSome result (λ e. IsSomeBy e parts.now) }
    ensures none { IfNone result (AllByRecursion IsGained parts.now) }
{
    'parts: for part in parts {
        if let Some(error) = error_of(part) {
            return Some(error);
        }
    }
    None
}

fn error_of(part: &Result<FlatRows, FileError>) -> Option<FileError>
    ensures some { IfSome result (λ e. part.now ≡ Err e) }
    ensures none { IfNone result (IsGained part.now) }
{
    match part {
        Ok(_) => None,
        Err(error) => Some(*error),
    }
}

/// Whether no part has a row.
pub(crate) fn are_empty(parts: &[Result<FlatRows, FileError>]) -> bool
    ensures empty { result ≡ true → joined parts.now ≡ [] }
    ensures some { result ≡ false → 0 < length (joined parts.now) }
{
    'parts: for part in parts {
        if has_rows(part) {
            return false;
        }
    }
    true
}

fn has_rows(part: &Result<FlatRows, FileError>) -> bool
    ensures some { result ≡ true → 0 < length (gained part.now) }
    ensures none { result ≡ false → gained part.now ≡ [] }
{
    match part {
        Ok(rows) => !rows.is_empty(),
        Err(_) => false,
    }
}
