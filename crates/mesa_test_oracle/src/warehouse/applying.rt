// Doing commands.
ghost use Rattle.std.specs.Prelude.{◌≡◌, ◌+◌, ℕ, IfOk, IsOk, IsTrue, OnErr};
ghost use Rattle.mesa_model.specs.Query.{query_answer};
ghost use Rattle.mesa_model.specs.Step.{reply_to_query, step};
ghost use Rattle.mesa_test_oracle.specs.Plain.{GaveAtMost, HasToken, is_plain};

use crate::warehouse::PlainWarehouse;
use mesa_filter::QueryWords;
use mesa_model::{Command, Reply};
use std::alloc::AllocError;

impl PlainWarehouse {
    /// Does a command of a session, each but `explain` and `work`, which the range machine answers. A query is answered by its page, and a recast is done at once.
    pub fn apply(&mut self, session: u16, command: &Command) -> Result<Reply, AllocError>
        requires plain { IsTrue (is_plain command.now) }
        requires tokens { HasToken self.old session command.now }
        ensures step { IfOk result (λ reply. step self.old session command.now ≡ (self.new, reply)) }
        ensures kept { OnErr result (self.new ≡ self.old) }
        ensures given { (count : ℕ) → GaveAtMost count self.old → GaveAtMost (count + 1) self.new }
        ensures released { (token : ℕ) → command.now ≡ Command.Release token → IsOk result }
    {
        self.decide(session, command)
    }

    // What `apply` does, but for how many tokens it gives.
    fn decide(&mut self, session: u16, command: &Command) -> Result<Reply, AllocError>
        requires plain { IsTrue (is_plain command.now) }
        requires tokens { HasToken self.old session command.now }
        ensures step { IfOk result (λ reply. step self.old session command.now ≡ (self.new, reply)) }
        ensures kept { OnErr result (self.new ≡ self.old) }
        ensures released { (token : ℕ) → command.now ≡ Command.Release token → IsOk result }
    {
        match command {
            Command::Table(words) => self.make_table(words),
            Command::View(words) => self.make_view(words),
            Command::Alter(words) => self.alter(words),
            Command::Load(rows) => self.load(rows),
            Command::Query(words) => self.reply_to_query(session, words),
            Command::Pin(version) => self.pin(session, *version),
            Command::Release(token) => Ok(self.release(session, *token)),
            Command::Expire { table, version } => self.expire(table, *version),
            Command::Recast(words) => self.recast(words),
            Command::Explain(_) | Command::Work(_) => unreachable!(),
        }
    }

    // A query's page, or why it isn't answered.
    fn reply_to_query(&self, session: u16, words: &QueryWords) -> Result<Reply, AllocError>
        ensures { IfOk result (λ reply. reply_to_query (query_answer self.now session words.now) ≡ reply) }
    {
        match self.query(session, words) {
            Ok(Ok((page, _))) => Ok(Reply::Page(page)),
            Ok(Err(refusal)) => Ok(Reply::Refused(refusal)),
            Err(error) => Err(error),
        }
    }
}
