// Adopted files of which nothing is recorded.
ghost use Rattle.std.specs.Prelude.{◌≡◌, map, IfOk, IfErr};
ghost use Rattle.mesa_disk.specs.Story.{Unmoved};
ghost use Rattle.mesa_store_spec.specs.Fitting.{has_number};
ghost use Rattle.mesa_catalog_table.specs.Files.{RiseFrom, recorded_id};
ghost use Rattle.mesa_recover.specs.Checking.{Counts, IsFaultOrMemory};
ghost use Rattle.mesa_recover.specs.Strays.{AreUnrecorded, unnamed_of};

use crate::{OpenError, Recorded};
use mesa_disk::{Disk, FileId, Made};
use std::alloc::{AllocError, Global};

/// The ids of the adopted files of which nothing is recorded, rising. What is recorded stands by rising ids.
pub fn find_strays<M: Made, D: Disk<M>>(
    alloc: Global,
    disk: &mut D,
    files: &[Recorded],
) -> Result<Vec<FileId>, OpenError>
    requires { RiseFrom 0 (map recorded_id files.now) }
    ensures found { IfOk result (λ ids. AreUnrecorded (D.story disk.old) files.now ids.items) }
    ensures kind { IfErr result IsFaultOrMemory }
    ensures unmoved { Unmoved (D.story disk.old) (D.story disk.new) }
    ensures counts { Counts (D.story disk.old) (D.story disk.new) result }
{
    let named = numbers_of(alloc, files)?;
    let ids = disk.file_ids()?;
    let strays = unnamed(alloc, &ids, &named)?;
    Ok(strays)
}

// The numbers of files' ids.
fn numbers_of(alloc: Global, files: &[Recorded]) -> Result<Vec<u64>, AllocError>
    ensures { IfOk result (λ numbers. numbers.items ≡ map recorded_id files.now) }
{
    let mut numbers = Vec::with_capacity(alloc, files.len())?;
    for file in files {
        numbers.push(file.id.number())?;
    }
    Ok(numbers)
}

// Those of the ids whose numbers aren't among the rising ones.
fn unnamed(alloc: Global, ids: &[FileId], named: &[u64]) -> Result<Vec<FileId>, AllocError>
    requires { RiseFrom 0 named.now }
    ensures { IfOk result (λ strays. strays.items ≡ unnamed_of named.now ids.now) }
{
    let mut strays = Vec::new(alloc);
    for id in ids {
        if !is_among(named, id.number()) {
            strays.push(*id)?;
        }
    }
    Ok(strays)
}

// Whether a number is among rising ones.
fn is_among(numbers: &[u64], number: u64) -> bool
    requires { RiseFrom 0 numbers.now }
    ensures { result ≡ has_number number numbers.now }
{
    numbers.binary_search(&number).is_ok()
}
