// The file of the rows of a range.
ghost use Rattle.std.specs.Prelude.{◌≡◌, ◌<◌, [], length, None};
ghost use Rattle.std.specs.List.{AllByRecursion};
ghost use Rattle.mesa_delta.specs.Writing.{HasTaken, columns_of, draft_of, id_of};
ghost use Rattle.mesa_compact.specs.mesa_scan.Cut.{CutsRise};
ghost use Rattle.mesa_compact.specs.Grouping.{HavePut, TakesRows};
ghost use Rattle.mesa_split.specs.Held.{held_bytes, sent_bytes};
ghost use Rattle.mesa_split.specs.Lending.{AllTell, AreReady, own_in};
ghost use Rattle.mesa_split.specs.Rounds.{HasRangeFile};

use crate::held::Held;
use crate::parts::Part;
use crate::rounds::pour_pieces;
use mesa_answer::Groups;
use mesa_compact::{begin_file, end_file, give_up};
use mesa_delta::DeltaWriter;
use mesa_disk::{Bench, Draft, FileReader, Made};
use mesa_file::FileId;
use mesa_open_files::{CompactError, MadeFile};
use mesa_schema::{KeyList, Schema};
use std::alloc::Global;
use std::thread::Threads;

/// The file of all rows of a range, which parts merge piece by piece, through a new draft under this id. The rows are put into the groups as they are written. There is no file where there are no rows.
pub(crate) fn range_file<T: Threads + Sync, M: Made, B: Bench<M>, R: FileReader>(
    rt: &T,
    alloc: Global,
    bench: &mut B,
    id: FileId,
    schema: &Schema,
    cuts: &KeyList,
    parts: &mut [Part<R>],
    groups: &mut Vec<Groups>,
    newest: FileId,
) -> Result<Option<MadeFile<M>>, CompactError>
    requires cuts { CutsRise None cuts.now }
    requires some { 0 < length parts.old }
    requires ready { AreReady R.bytes schema.now parts.old }
    requires none { HavePut groups.old.items [] }
    requires takes { AllByRecursion (TakesRows schema.now) groups.old.items }
    requires tells { AllTell R.bytes (own_in parts.old) parts.old }
    ensures { HasRangeFile M.bytes M.id_of R.bytes R.faults R.size schema.now id newest (own_in parts.old) parts.old parts.new groups.old.items groups.new.items (B.faults bench.old) (B.faults bench.new) result }
{
    let writer = match begin_file(alloc, bench, id, schema) {
        Ok(writer) => writer,
        Err(error) => return Err(error),
    };
    let (mut writer, mut draft) = held_over(alloc, writer);
    let poured = pour_pieces(
        rt,
        alloc,
        schema,
        cuts,
        parts,
        &mut writer,
        &mut draft,
        groups,
        newest,
    );
    let (writer, _held) = writer.over(draft);
    match poured {
        Ok(true) => match end_file(bench, writer) {
            Ok(file) => Ok(Some(file)),
            Err(error) => Err(error),
        },
        Ok(false) => {
            give_up(bench, writer);
            Ok(None)
        }
        Err(error) => {
            give_up(bench, writer);
            Err(error)
        }
    }
}

// A writer that holds what it writes, and the draft that it had.
fn held_over<M: Made, D: Draft<M>>(
    alloc: Global,
    writer: DeltaWriter<M, D>,
) -> (DeltaWriter<M, Held<M, D>>, D)
    requires { HasTaken D.bytes writer [] }
    ensures taken { HasTaken (held_bytes D.bytes) result.0 [] }
    ensures columns { columns_of result.0 ≡ columns_of writer }
    ensures id { id_of result.0 ≡ id_of writer }
    ensures sent { sent_bytes D.bytes (draft_of result.0) ≡ D.bytes result.1 }
    ensures draft { result.1 ≡ draft_of writer }
{
    let held = Held::of(Vec::new(alloc), writer.draft());
    writer.over(held)
}
