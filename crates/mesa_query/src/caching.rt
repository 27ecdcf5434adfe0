// Caches put before the readers of a query's files, and taken away again.
ghost use Rattle.std.specs.Prelude.{◌≡◌, ◌≤◌, ◌+◌, ◌++◌, [], ◌∷◌, map, reverse, vec_len, vec_capacity, IfOk, IfErr};
ghost use Rattle.mesa_group_blocks.specs.mesa_scan.Cursors.{IsInput};
ghost use Rattle.mesa_query.specs.Cooled.{cooled_file};
ghost use Rattle.mesa_query.specs.Same.{AreReadable, AreSameFiles};

use mesa_cache::Cached;
use mesa_disk::FileReader;
use mesa_group_blocks::{DeltaReader, Input, PinnedInput};
use std::alloc::{AllocError, Global};

// A query's files.
type Files<R> = Vec<PinnedInput<R>>;

// The files read through caches, beside the room that they stood in. Where there is no memory for that, they are given back as they were.
pub(crate) fn warm_all<R: FileReader>(
    alloc: Global,
    mut files: Files<R>,
    pages: usize,
) -> Result<(Files<Cached<R>>, Files<R>), (AllocError, Files<R>)>
    requires pages { 1 ≤ pages }
    requires readable { AreReadable R.bytes files.items }
    ensures same { IfOk result (λ both. AreSameFiles R.bytes files.items (map cooled_file both.0.items)) }
    ensures readable { IfOk result (λ both. AreReadable R.bytes (map cooled_file both.0.items)) }
    ensures empty { IfOk result (λ both. vec_len both.1 ≡ 0) }
    ensures fits { IfOk result (λ both. vec_len both.0 ≤ vec_capacity both.1) }
    ensures given_back { IfErr result (λ e. AreSameFiles R.bytes files.items e.1.items) }
    ensures readable_again { IfErr result (λ e. AreReadable R.bytes e.1.items) }
{
    let mut warm = match Vec::with_capacity(alloc, files.len()) {
        Ok(warm) => warm,
        Err(error) => return Err((error, files)),
    };
    files.reverse();
    'each_file: while let Some(file) = files.pop() {
        match warm_one(alloc, file, pages) {
            Ok(file) => warm.push_reserved(file),
            Err((error, file)) => {
                files.push_reserved(file);
                return Err((error, cool_all(warm, files)));
            }
        }
    }
    Ok((warm, files))
}

// The files without their caches, and behind them those that never had one, which are given with the last one first.
pub(crate) fn cool_all<R: FileReader>(mut warm: Files<Cached<R>>, mut files: Files<R>) -> Files<R>
    requires room { vec_len warm + vec_len files ≤ vec_capacity files }
    requires readable { AreReadable R.bytes (map cooled_file warm.items ++ reverse files.items) }
    ensures same { AreSameFiles R.bytes (map cooled_file warm.items ++ reverse files.items) result.items }
    ensures readable { AreReadable R.bytes result.items }
{
    'each_file: while let Some(file) = warm.pop() {
        files.push_reserved(cool_one(file));
    }
    warm.destroy_empty();
    files.reverse();
    files
}

// A file read through a cache.
fn warm_one<R: FileReader>(
    alloc: Global,
    file: PinnedInput<R>,
    pages: usize,
) -> Result<PinnedInput<Cached<R>>, (AllocError, PinnedInput<R>)>
    requires pages { 1 ≤ pages }
    requires readable { IsInput R.bytes file.input }
    ensures same { IfOk result (λ warm. AreSameFiles R.bytes (file ∷ []) (cooled_file warm ∷ [])) }
    ensures readable { IfOk result (λ warm. IsInput R.bytes (cooled_file warm).input) }
    ensures given_back { IfErr result (λ e. AreSameFiles R.bytes (file ∷ []) (e.1 ∷ [])) }
    ensures readable_again { IfErr result (λ e. IsInput R.bytes e.1.input) }
{
    let PinnedInput { input, own } = file;
    let Input {
        reader,
        evolving,
        epoch,
    } = input;
    let (reader, index) = reader.part();
    match Cached::new(alloc, reader, pages) {
        Ok(reader) => {
            let reader = DeltaReader::whole(reader, index);
            let input = Input {
                reader,
                evolving,
                epoch,
            };
            Ok(PinnedInput { input, own })
        }
        Err((error, reader)) => {
            let reader = DeltaReader::whole(reader, index);
            let input = Input {
                reader,
                evolving,
                epoch,
            };
            Err((error, PinnedInput { input, own }))
        }
    }
}

// The file without its cache.
fn cool_one<R: FileReader>(warm: PinnedInput<Cached<R>>) -> PinnedInput<R>
    requires { IsInput R.bytes (cooled_file warm).input }
    ensures same { AreSameFiles R.bytes (cooled_file warm ∷ []) (result ∷ []) }
    ensures readable { IsInput R.bytes result.input }
{
    let PinnedInput { input, own } = warm;
    let Input {
        reader,
        evolving,
        epoch,
    } = input;
    let (reader, index) = reader.part();
    let reader = DeltaReader::whole(reader.into_inner(), index);
    let input = Input {
        reader,
        evolving,
        epoch,
    };
    PinnedInput { input, own }
}
