// The view that is asked of a table.
ghost use Rattle.std.specs.Prelude.{◌≡◌, ◌<◌, length, map, Ok, IfOk, IfErr, OnOk};
ghost use Rattle.std.specs.List.{list_all};
ghost use Rattle.mesa_list.specs.Checks.{refuse_unless, refused_as};
ghost use Rattle.mesa_schema.specs.Changes.{columns_of};
ghost use Rattle.mesa_model.specs.mesa_columns.Columns.{key_names};
ghost use Rattle.mesa_model.specs.mesa_columns.Names.{has_name};
ghost use Rattle.mesa_schema.specs.Views.{choice_checked, chosen_values_checked, view_checked};
ghost use Rattle.mesa_model.specs.Refusals.{view_refusal};
ghost use Rattle.mesa_binding.specs.Asked.{more_views_checked};
ghost use Rattle.mesa_binding.specs.Told.{IsDue, view_failure};

use crate::failure::Failure;
use crate::naming::column_name;
use mesa_list::Items;
use mesa_model::{Refusal, SchemaFault, ViewWords};
use mesa_schema::{Evolving, MAX_VIEWS, Name, Named, View, ViewError, Words};
use std::alloc::Global;

/// The view of this name that is asked of a table with these columns and views, or why it isn't made.
pub fn view_asked(
    alloc: Global,
    evolving: &Evolving,
    name: Name,
    words: &ViewWords,
) -> Result<View, Failure>
    ensures asked { IfOk result (λ view. view ≡ record { name = name; keys = words.now.keys; values = words.now.values }) }
    ensures checked { OnOk result (more_views_checked evolving.now words.now ≡ Ok tt) }
    ensures room { OnOk result (length evolving.now.views < MAX_VIEWS) }
    ensures refused { IfErr result (IsDue (more_views_checked evolving.now words.now)) }
{
    let view = view_chosen(alloc, evolving, name, words)?;
    let views = evolving.views() as usize;
    if views >= MAX_VIEWS {
        let limit = MAX_VIEWS as u32;
        return Err(Failure::Refused(Refusal::TablesFull { limit }));
    }
    Ok(view)
}

// The same, however many views there are.
fn view_chosen(
    alloc: Global,
    evolving: &Evolving,
    name: Name,
    words: &ViewWords,
) -> Result<View, Failure>
    ensures asked { IfOk result (λ view. view ≡ record { name = name; keys = words.now.keys; values = words.now.values }) }
    ensures checked { OnOk result (view_checked (columns_of evolving.now) words.now.keys words.now.values ≡ Ok tt) }
    ensures refused { IfErr result (IsDue (refused_as view_refusal (view_checked (columns_of evolving.now) words.now.keys words.now.values))) }
{
    let keys = chosen_keys(alloc, evolving, words.keys.as_slice())?;
    let values = chosen_values(alloc, evolving, words.values.as_slice())?;
    Ok(View { name, keys, values })
}

// The names of the key columns that a view chooses.
pub(crate) fn chosen_keys(
    alloc: Global,
    evolving: &Evolving,
    words: &[Words],
) -> Result<Items<Name>, Failure>
    ensures read { IfOk result (λ names. names ≡ words.now) }
    ensures checked { OnOk result (choice_checked (key_names (columns_of evolving.now)) ViewError.NoKey words.now ≡ Ok tt) }
    ensures refused { IfErr result (IsDue (refused_as view_refusal (choice_checked (key_names (columns_of evolving.now)) ViewError.NoKey words.now))) }
{
    let names = names_of(alloc, words, evolving.present().keys())?;
    match evolving.check_view_keys(names.as_slice()) {
        Ok(()) => Ok(names),
        Err(error) => Err(refusal_of(error)),
    }
}

// The names of the value columns that a view chooses.
fn chosen_values(
    alloc: Global,
    evolving: &Evolving,
    words: &[Words],
) -> Result<Items<Name>, Failure>
    ensures read { IfOk result (λ names. names ≡ words.now) }
    ensures checked { OnOk result (chosen_values_checked (columns_of evolving.now) words.now ≡ Ok tt) }
    ensures refused { IfErr result (IsDue (refused_as view_refusal (chosen_values_checked (columns_of evolving.now) words.now))) }
{
    let names = names_of(alloc, words, evolving.present().values())?;
    match evolving.check_view_values(names.as_slice()) {
        Ok(()) => Ok(names),
        Err(error) => Err(refusal_of(error)),
    }
}

// The names of the columns that are asked, each of which is there.
pub(crate) fn names_of<C: Named>(
    alloc: Global,
    words: &[Words],
    columns: &[C],
) -> Result<Items<Name>, Failure>
    ensures read { IfOk result (λ names. names ≡ words.now) }
    ensures refused { IfErr result (IsDue (refuse_unless (list_all (λ word. has_name word (map C.name_of columns.now)) words.now) Refusal.NoColumn)) }
{
    let mut names = Items::new(alloc);
    'words: for word in words {
        let name = column_name(word.as_slice(), columns)?;
        names.push(name)?;
    }
    Ok(names)
}

fn refusal_of(error: ViewError) -> Failure
    ensures { result ≡ view_failure error }
{
    let reason = match error {
        ViewError::NoColumn => return Failure::Refused(Refusal::NoColumn),
        ViewError::NoKey => SchemaFault::NoKey,
        ViewError::NoValue => SchemaFault::NoValue,
        ViewError::NameTwice => SchemaFault::NameTwice,
        ViewError::ReplaceInView { column } => {
            return Failure::Refused(Refusal::ReplaceGroup { column });
        }
        ViewError::Memory => return Failure::Memory,
    };
    Failure::Refused(Refusal::BadSchema { reason })
}
