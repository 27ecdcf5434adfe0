// Views that are made.
ghost use Rattle.std.specs.Prelude.{◌≡◌, ◌<◌, length, Ok, IfOk, IfErr, OnOk, OnErr};
ghost use Rattle.mesa_schema.specs.Views.{with_view};
ghost use Rattle.mesa_model.specs.Step.{done_or_refused};
ghost use Rattle.mesa_model.specs.Tables.{make_view as view_made};
ghost use Rattle.mesa_binding.specs.Asked.{more_views_checked};
ghost use Rattle.mesa_binding.specs.Told.{IsDue};

use super::PlainWarehouse;
use mesa_binding::{Failure, read_name, view_asked};
use mesa_list::TryCopy;
use mesa_model::{Refusal, Reply, ViewWords};
use mesa_schema::{Evolving, MAX_VIEWS, Name, View};
use std::alloc::{AllocError, Global};
use std::sync::Arc;

impl PlainWarehouse {
    /// Makes a view of a table.
    pub fn make_view(&mut self, words: &ViewWords) -> Result<Reply, AllocError>
        ensures done { IfOk result (λ reply. done_or_refused self.old (view_made self.old words.now) ≡ (self.new, reply)) }
        ensures kept { OnErr result (self.new ≡ self.old) }
    {
        match self.try_make_view(words) {
            Ok(reply) => Ok(reply),
            Err(Failure::Refused(refusal)) => Ok(Reply::Refused(refusal)),
            Err(Failure::Memory) => Err(AllocError),
        }
    }

    fn try_make_view(&mut self, words: &ViewWords) -> Result<Reply, Failure>
        ensures done { IfOk result (λ reply. view_made self.old words.now ≡ Ok (self.new, reply)) }
        ensures refused { IfErr result (IsDue (view_made self.old words.now)) }
        ensures kept { OnErr result (self.new ≡ self.old) }
    {
        let asked = words.view.as_slice();
        let name = read_name(self.alloc, asked)?;
        if self.store.is_taken(asked) {
            return Err(Failure::Refused(Refusal::TableExists));
        }
        let Some(table) = self.store.number(words.table.as_slice()) else {
            return Err(Failure::Refused(Refusal::NoTable { row: None }));
        };
        let made = name.copy()?;
        let evolving = self.store.evolving(table);
        let more = evolving_with(self.alloc, evolving, name, words)?;
        self.store.set_evolving(table, more);
        Ok(Reply::View { name: made })
    }
}

// A table's columns and views with the view that is asked, or why it isn't made.
fn evolving_with(
    alloc: Global,
    evolving: &Evolving,
    name: Name,
    words: &ViewWords,
) -> Result<Arc<Evolving>, Failure>
    ensures added { IfOk result (λ more. more.value ≡ with_view evolving.now (record { name = name; keys = words.now.keys; values = words.now.values })) }
    ensures checked { OnOk result (more_views_checked evolving.now words.now ≡ Ok tt) }
    ensures refused { IfErr result (IsDue (more_views_checked evolving.now words.now)) }
{
    let view = view_asked(alloc, evolving, name, words)?;
    Ok(view_added(alloc, evolving, view)?)
}

// A copy with a view more of which the rules were looked at: what pins share stays as it is.
fn view_added(alloc: Global, evolving: &Evolving, view: View) -> Result<Arc<Evolving>, AllocError>
    requires { length evolving.now.views < MAX_VIEWS }
    ensures { IfOk result (λ more. more.value ≡ with_view evolving.now view) }
{
    let mut more = evolving.copy()?;
    let View { name, keys, values } = view;
    match more.add_view(name, keys.into_vec(), values.into_vec()) {
        Ok(()) => Ok(Arc::new(alloc, more)?),
        Err(_) => Err(AllocError),
    }
}
