// The turns of each command.
ghost use Rattle.std.specs.Prelude.{◌≡◌, ◌<◌, ◌≤◌, not, Some, length};
ghost use Rattle.mesa_session_turns.specs.mesa_history_spec.Legal.{is_query};
ghost use Rattle.mesa_session_turns.specs.mesa_history_spec.Run.{First, Finished, command_at};
ghost use Rattle.mesa_session_turns.specs.mesa_history_spec.Turns.{place_then};
ghost use Rattle.mesa_model.specs.declared.commands.Command.TheVariants as command;
ghost use Rattle.mesa_session_turns.specs.mesa_history_spec.Rows.{no_rows};
ghost use Rattle.mesa_session_turns.specs.mesa_invariant_spec.Turns.{is_merge, is_recast};
ghost use Rattle.mesa_session_turns.specs.mesa_core.Answers.{Answers};
ghost use Rattle.mesa_session_turns.specs.mesa_core.Passes.{HasSort, Mine, Took, at_stage};
ghost use Rattle.mesa_session.specs.Drafts.{AreOf, GoOn};

use crate::gate::{Gate, Point};
use crate::session::Sessions;
use mesa_batch::LoadRows;
use mesa_disk::{Bench, Made};
use mesa_file::Serials;
use mesa_io::Sink;
use mesa_model::Command;
use mesa_session_turns::{
    DeltaDisk, Naming, Who, abandon_turn, answered, close_turn, complete_turn, grant_recast_turn,
    grant_turn, look_turn, merged, pin_turn, prepared_first, publish_turn, recast_turn, regrouped,
    renew_recast_turn, renew_turn, simple_turn,
};
use mesa_turn::Pass;
use std::sync::Wait;
use std::thread::Threads;

// Of each command the second result is whether the sink had not failed before its last turn.

impl<
    'a,
    's,
    N: Naming + Send,
    M: Made,
    D: DeltaDisk<M>,
    K: Sink + Send,
    R: Threads + Wait + Sync,
    G: Gate,
> Sessions<'a, 's, N, M, D, K, R, G> {
    // A load looks, is prepared outside, and is decided.
    fn load<B: Bench<M>>(
        &self,
        pass: Pass,
        who: Who,
        rows: &LoadRows,
        bench: &mut B,
        ids: &mut Serials,
    ) -> (Pass, bool)
        requires lock { pass.lock ≡ self.now.lock.now }
        requires few { length N.script.sessions ≤ 8 }
        requires session { who.session < 8 }
        requires room { (3 ≤ pass.room) × (pass.limit ≤ N.room) }
        requires mine { Mine N.script (N.start no_rows) pass who.session (at_stage who.command First) }
        requires known { command_at N.script who.session who.command ≡ Some (command.Load rows.now) }
        requires own { AreOf (N.origin no_rows).run who.session ids.old }
        ensures took { Took who.session pass result.0 3 }
        ensures mine { Mine N.script (N.start no_rows) result.0 who.session (place_then (not result.1) who.command Finished) }
        ensures answers { Answers N.script (N.start no_rows) who.session pass result.0 (B.faults bench.old) (B.faults bench.new) 0 }
        ensures ids { GoOn (N.origin no_rows).run who.session ids.old ids.new }
    {
        let (pass, ran, looked) = look_turn(self.rt, self.lock, pass, who);
        if !ran {
            drop(looked);
            return (pass, false);
        }
        let (generation, made) = prepared_first::<N, M, R, B>(
            self.rt, self.alloc, bench, ids, looked, rows,
        );
        publish_turn(
            self.rt, self.alloc, self.lock, pass, who, rows, bench, ids, generation, made,
        )
    }

    // A query is decided, answered outside, and closes.
    fn query(&self, pass: Pass, who: Who) -> (Pass, bool)
        requires lock { pass.lock ≡ self.now.lock.now }
        requires few { length N.script.sessions ≤ 8 }
        requires room { (3 ≤ pass.room) × (pass.limit ≤ N.room) }
        requires mine { Mine N.script (N.start no_rows) pass who.session (at_stage who.command First) }
        requires sort { HasSort N.script who.session who.command is_query }
        ensures took { Took who.session pass result.0 3 }
        ensures mine { Mine N.script (N.start no_rows) result.0 who.session (place_then (not result.1) who.command Finished) }
        ensures answers { Answers N.script (N.start no_rows) who.session pass result.0 0 0 0 }
    {
        let (pass, ran, pinned) = pin_turn(self.rt, self.lock, pass, who);
        match pinned {
            Some(pinned) => {
                let (pinned, answer) = answered(self.rt, self.alloc, pinned);
                close_turn(self.rt, self.lock, pass, who, pinned, answer)
            }
            None => (pass, ran),
        }
    }

    // A work is granted, merged outside, renewed, and completed. One whose merge failed isn't renewed.
    fn work<B: Bench<M>>(
        &self,
        pass: Pass,
        who: Who,
        bench: &mut B,
        ids: &mut Serials,
    ) -> (Pass, bool)
        requires lock { pass.lock ≡ self.now.lock.now }
        requires few { length N.script.sessions ≤ 8 }
        requires session { who.session < 8 }
        requires room { (3 ≤ pass.room) × (pass.limit ≤ N.room) }
        requires mine { Mine N.script (N.start no_rows) pass who.session (at_stage who.command First) }
        requires sort { HasSort N.script who.session who.command is_merge }
        requires own { AreOf (N.origin no_rows).run who.session ids.old }
        ensures took { Took who.session pass result.0 3 }
        ensures mine { Mine N.script (N.start no_rows) result.0 who.session (place_then (not result.1) who.command Finished) }
        ensures answers { Answers N.script (N.start no_rows) who.session pass result.0 (B.faults bench.old) (B.faults bench.new) 0 }
        ensures ids { GoOn (N.origin no_rows).run who.session ids.old ids.new }
    {
        let (pass, ran, task) = grant_turn(self.rt, self.lock, pass, who);
        let Some(mut task) = task else {
            return (pass, ran);
        };
        let delta = merged(self.rt, self.alloc, bench, ids, &mut task);
        self.gate.reach(self.rt, Point::Merged, who.session);
        if delta.is_err() {
            return complete_turn(self.rt, self.lock, pass, who, task, delta);
        }
        let (pass, ran, renewed) = renew_turn(self.rt, self.lock, pass, who, task);
        match renewed {
            Some(task) => complete_turn(self.rt, self.lock, pass, who, task, delta),
            None => {
                drop(delta);
                (pass, ran)
            }
        }
    }

    // A recast is granted, rewritten outside, renewed, and closed, with what came meanwhile rewritten in its last turn. One whose ranges weren't rewritten isn't renewed.
    fn recast<B: Bench<M>>(
        &self,
        pass: Pass,
        who: Who,
        bench: &mut B,
        ids: &mut Serials,
    ) -> (Pass, bool)
        requires lock { pass.lock ≡ self.now.lock.now }
        requires few { length N.script.sessions ≤ 8 }
        requires session { who.session < 8 }
        requires room { (3 ≤ pass.room) × (pass.limit ≤ N.room) }
        requires mine { Mine N.script (N.start no_rows) pass who.session (at_stage who.command First) }
        requires sort { HasSort N.script who.session who.command is_recast }
        requires own { AreOf (N.origin no_rows).run who.session ids.old }
        ensures took { Took who.session pass result.0 3 }
        ensures mine { Mine N.script (N.start no_rows) result.0 who.session (place_then (not result.1) who.command Finished) }
        ensures answers { Answers N.script (N.start no_rows) who.session pass result.0 (B.faults bench.old) (B.faults bench.new) 0 }
        ensures ids { GoOn (N.origin no_rows).run who.session ids.old ids.new }
    {
        let (pass, ran, task) = grant_recast_turn(self.rt, self.lock, pass, who);
        let Some(mut task) = task else {
            return (pass, ran);
        };
        let made = regrouped(self.alloc, bench, ids, &mut task);
        self.gate.reach(self.rt, Point::Merged, who.session);
        let made = match made {
            Ok(made) => made,
            Err(error) => return abandon_turn(self.rt, self.lock, pass, who, task, error),
        };
        let (pass, ran, renewed) = renew_recast_turn(self.rt, self.lock, pass, who, task);
        match renewed {
            Some(task) => recast_turn(
                self.rt, self.alloc, self.lock, pass, who, bench, ids, task, made,
            ),
            None => {
                drop(made);
                (pass, ran)
            }
        }
    }

    /// A session's command, to its end or to a turn that finds that the sink has failed.
    pub(crate) fn run_command<B: Bench<M>>(
        &self,
        pass: Pass,
        who: Who,
        command: &Command,
        bench: &mut B,
        ids: &mut Serials,
    ) -> (Pass, bool)
        requires lock { pass.lock ≡ self.now.lock.now }
        requires few { length N.script.sessions ≤ 8 }
        requires session { who.session < 8 }
        requires room { (3 ≤ pass.room) × (pass.limit ≤ N.room) }
        requires mine { Mine N.script (N.start no_rows) pass who.session (at_stage who.command First) }
        requires known { command_at N.script who.session who.command ≡ Some command.now }
        requires own { AreOf (N.origin no_rows).run who.session ids.old }
        ensures took { Took who.session pass result.0 3 }
        ensures mine { Mine N.script (N.start no_rows) result.0 who.session (place_then (not result.1) who.command Finished) }
        ensures answers { Answers N.script (N.start no_rows) who.session pass result.0 (B.faults bench.old) (B.faults bench.new) 0 }
        ensures ids { GoOn (N.origin no_rows).run who.session ids.old ids.new }
    {
        match command {
            Command::Load(rows) => self.load(pass, who, rows, bench, ids),
            Command::Query(_) => self.query(pass, who),
            Command::Work(_) => self.work(pass, who, bench, ids),
            Command::Recast(_) => self.recast(pass, who, bench, ids),
            _ => simple_turn(self.rt, self.lock, pass, who),
        }
    }
}
