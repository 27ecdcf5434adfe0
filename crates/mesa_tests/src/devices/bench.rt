// A bench whose drafts come by a meeting when they are first written.
ghost use Rattle.std.specs.Prelude.{Some};

use crate::devices::{Meeting, Place};
use mesa_disk::{Bench, Draft, DraftError, FileId, MemBench, MemDraft, MemMade};

/// A session's bench, whose drafts come by a meeting at their first append.
#[derive(Drop)]
pub struct MetBench<'a> {
    bench: MemBench,
    meeting: &'a Meeting,
    session: u16,
}

impl<'a> MetBench<'a> {
    pub fn new(bench: MemBench, meeting: &'a Meeting, session: u16) -> MetBench<'a> {
        MetBench {
            bench,
            meeting,
            session,
        }
    }
}

impl<'a> Bench<MemMade> for MetBench<'a> {
    ghost use Rattle.mesa_disk.specs.Benches.{bench_faults};

    type Draft = MetDraft<'a>;

    ghost faults = { λ b. bench_faults b.bench };

    fn draft(&mut self, id: FileId) -> Result<MetDraft<'a>, DraftError> {
        let draft = self.bench.draft(id)?;
        Ok(MetDraft {
            draft,
            meeting: self.meeting,
            session: self.session,
        })
    }

    fn spoil(&mut self, failed: MetDraft<'a>) {
        let MetDraft { draft, .. } = failed;
        self.bench.spoil(draft);
    }
}

/// A draft that comes by a meeting before it is written.
#[derive(Drop)]
pub struct MetDraft<'a> {
    draft: MemDraft,
    meeting: &'a Meeting,
    session: u16,
}

impl<'a> Draft<MemMade> for MetDraft<'a> {
    ghost use Rattle.mesa_disk.specs.Benches.{draft_bytes, draft_faults, draft_id};

    ghost id_of = { λ d. draft_id d.draft };

    ghost bytes = { λ d. Some (draft_bytes d.draft) };

    ghost faults = { λ d. draft_faults d.draft };

    fn append(&mut self, piece: &[u8]) -> Result<(), DraftError> {
        self.meeting.come(self.session, Place::Appending);
        self.draft.append(piece)
    }

    fn finish(self) -> Result<MemMade, (DraftError, Self)> {
        let MetDraft {
            draft,
            meeting,
            session,
        } = self;
        match draft.finish() {
            Ok(made) => Ok(made),
            Err((error, draft)) => {
                let draft = MetDraft {
                    draft,
                    meeting,
                    session,
                };
                Err((error, draft))
            }
        }
    }
}
