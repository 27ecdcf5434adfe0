// Laws of the definitions.
ghost use Rattle.std.specs.List.{AllByRecursion};
ghost use Rattle.std.specs.Prelude.{◌≡◌, ℕ, List, Some};
ghost use Rattle.mesa_model.specs.declared.commands.Command.{Command as AnyCommand};
ghost use Rattle.mesa_model.specs.declared.entries.Entry.{Entry as AnyEntry};
ghost use Rattle.mesa_model.specs.declared.replies.Reply.TheVariants as reply;
ghost use Rattle.mesa_model.specs.declared.replies.Refusal.TheVariants as no;
ghost use Rattle.mesa_model.specs.Entry.{IsShort, entry_of, history_of, number_of, numbers_of, session_at};
ghost use Rattle.mesa_model.specs.Step.{step};
ghost use Rattle.mesa_model.specs.Warehouse.{Warehouse};

/// A closed warehouse answers every command by the position at which it closed, and stays as it is.
pub fn closes_to_every_command()
    ensures { (w : Warehouse) (session : ℕ) (c : AnyCommand) (position : ℕ) → w.closed ≡ Some position
        → step w session c ≡ (w, reply.Refused (no.Closed position)) }
{}

/// An entry's number tells the entry, where its session and its command have their places in it: so
/// a list of numbers stands for a history.
pub fn numbers_tell_entries()
    ensures session { (e : AnyEntry) → IsShort e → session_at (number_of e) ≡ e.session }
    ensures entry { (e : AnyEntry) → IsShort e → entry_of (number_of e) ≡ e }
    ensures history { (h : List AnyEntry) → AllByRecursion IsShort h → history_of (numbers_of h) ≡ h }
{}
