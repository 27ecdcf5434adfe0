// Names that are asked.
ghost use Rattle.std.specs.Prelude.{◌≡◌, map, true, IfOk, IfErr, OnOk};
ghost use Rattle.mesa_list.specs.Checks.{refuse_unless};
ghost use Rattle.mesa_model.specs.mesa_columns.Names.{has_name, is_name};
ghost use Rattle.mesa_model.specs.Refusals.{bad_schema};
ghost use Rattle.mesa_model.specs.declared.replies.SchemaFault.TheVariants as fault;
ghost use Rattle.mesa_binding.specs.Told.{IsDue};

use crate::failure::Failure;
use mesa_list::TryCopy;
use mesa_model::{Refusal, SchemaFault};
use mesa_schema::{Name, NameError, Named, place_of};
use std::alloc::Global;

/// The name of these bytes, which are refused where they break the rule of names.
pub fn read_name(alloc: Global, bytes: &[u8]) -> Result<Name, Failure>
    ensures read { IfOk result (λ name. name ≡ bytes.now) }
    ensures named { OnOk result (is_name bytes.now ≡ true) }
    ensures refused { IfErr result (IsDue (refuse_unless (is_name bytes.now) (bad_schema fault.BadName))) }
{
    match Name::read(alloc, bytes) {
        Ok(name) => Ok(name),
        Err(NameError::Bad) => Err(Failure::Refused(Refusal::BadSchema {
            reason: SchemaFault::BadName,
        })),
        Err(NameError::Memory) => Err(Failure::Memory),
    }
}

// The name of the column of these bytes, which are refused where no column has it.
pub(crate) fn column_name<C: Named>(bytes: &[u8], columns: &[C]) -> Result<Name, Failure>
    ensures read { IfOk result (λ name. name ≡ bytes.now) }
    ensures refused { IfErr result (IsDue (refuse_unless (has_name bytes.now (map C.name_of columns.now)) Refusal.NoColumn)) }
{
    let Some(place) = place_of(bytes, columns) else {
        return Err(Failure::Refused(Refusal::NoColumn));
    };
    Ok(columns[place].name().copy()?)
}
