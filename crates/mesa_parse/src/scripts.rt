// Scripts.
ghost use Rattle.std.specs.Prelude.{◌≡◌, ◌≢◌, IfErr, IfOk, Ok};
ghost use Rattle.mesa_script.specs.Script.{script_of};

use crate::reading::Reading;
use crate::records::{next_record, record_reader};
use csv::ByteRecord;
use mesa_model::Script;
use mesa_script::ScriptError;
use std::alloc::Global;

/// The script that bytes spell, or its first bad record.
pub fn parse(alloc: Global, bytes: Vec<u8>) -> Result<Script, ScriptError>
    ensures read { IfOk result (λ script. script_of bytes.items ≡ Ok script) }
    ensures refused { IfErr result (λ e. e ≢ ScriptError.Memory → script_of bytes.items ≡ Err e) }
{
    let mut reader = record_reader(alloc, &bytes);
    let mut record = ByteRecord::new(alloc);
    let mut reading = Reading::new(alloc);
    let mut place = 1;
    'records: while next_record(&mut reader, &mut record)? {
        reading.take(alloc, place, &record)?;
        place += 1;
    }
    reading.end(place)
}
