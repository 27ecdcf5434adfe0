// The ids of a session's drafts.
ghost use Rattle.std.specs.Prelude.{◌≡◌, ◌+◌, ◌^◌, ◌<◌, ℕ};
ghost use Rattle.mesa_file.specs.Serials.{AreSerials, Drafts as AnyDrafts, after_drafts, drawn, next_serials};

use crate::FileId;
use std::marker::Model;

/// The ids of a session's drafts in a run, one after the other. Their serial numbers are counted modulo 2^32, so an id
/// comes again after as many drafts.
#[derive(Drop)]
pub struct Serials {
    run: u32,
    session: u8,
    next: u32,
    ghost few_runs: { run < 2 ^ 24 },
}

impl Model for Serials {
    ghost use Rattle.mesa_file.specs.Serials.{Drafts};

    ghost Value = { Drafts };

    ghost view = { λ s. record { run = s.run; session = s.session; next = s.next } };
}

impl Serials {
    /// The ids of the drafts of a session of this run, of which none was drawn yet.
    pub fn new(run: u32, session: u8) -> Serials
        requires { run < 2 ^ 24 }
        ensures { result ≡ record { run = run; session = session; next = 0 } }
    {
        Serials {
            run,
            session,
            next: 0,
        }
    }

    /// The id of the next draft.
    pub fn draw(&mut self) -> FileId
        ensures id { result ≡ drawn self.old }
        ensures next { self.new ≡ next_serials self.old }
    {
        let serial = self.next;
        self.next = serial.wrapping_add(1);
        FileId::new(self.run, self.session, serial)
    }
}

/// No two draws agree: of one session's ids as long as their serial numbers don't come again, and of two sessions, or of
/// two runs, ever.
pub fn draws_differ()
    ensures own { (d : AnyDrafts) (i n : ℕ) → AreSerials d → 0 < n → n < 2 ^ 32 → drawn (after_drafts (i + n) d) ≡ drawn (after_drafts i d) → ⊥ }
    ensures others { (d e : AnyDrafts) (i j : ℕ) → AreSerials d → AreSerials e → drawn (after_drafts i d) ≡ drawn (after_drafts j e) → (d.run ≡ e.run) × (d.session ≡ e.session) }
{}
