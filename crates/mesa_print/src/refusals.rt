// Refusals on a line.
ghost use Rattle.std.specs.Prelude.{◌≡◌, ◌+◌, ◌≤◌, ◌++◌, MatchOption, codes, decimal, length};
ghost use Rattle.std.specs.Int.{w64, to_be_bytes};
ghost use Rattle.mesa_filter.specs.Hex.{hex_of};
ghost use Rattle.mesa_script.specs.Replies.{damage_text, refusal_text, seen_text};
ghost use Rattle.mesa_model.specs.declared.replies.Refusal.TheVariants as no;
ghost use Rattle.mesa_print.specs.Lines.{Puts};

use crate::line::Line;
use mesa_file::{Damage, FileId, Seen};
use mesa_filter::VersionWord;
use mesa_model::{Refusal, SchemaFault};

impl Line<'_> {
    // Puts what was found at a place of a file, or wanted there.
    fn put_seen(&mut self, seen: &Seen)
        requires { self.old.len + 71 ≤ 512 }
        ensures puts { Puts self.old self.new (seen_text seen.now) }
        ensures short { self.new.len ≤ self.old.len + 71 }
    {
        match seen {
            Seen::Length(length) => self.put_labelled(b"length:", *length),
            Seen::Digest(digest) => {
                self.put(b"sha256:");
                self.put_hex(digest);
            }
            Seen::Absent => self.put(b"absent"),
            Seen::Fits => self.put(b"fits"),
            Seen::Misfit(place) => self.put_labelled(b"misfit:", *place),
        }
    }

    // Puts the id of a file, in sixteen hexadecimal digits.
    fn put_file(&mut self, file: FileId)
        requires { self.old.len + 16 ≤ 512 }
        ensures puts { Puts self.old self.new (hex_of (to_be_bytes w64 file)) }
        ensures len { self.new.len ≡ self.old.len + 16 }
    {
        self.put_hex(&file.number().to_be_bytes());
    }

    // Puts a damaged file, the place of the damage, and what differs there.
    fn put_damage(&mut self, damage: &Damage)
        requires { self.old.len + 211 ≤ 512 }
        ensures puts { Puts self.old self.new (damage_text damage.now) }
        ensures short { self.new.len ≤ self.old.len + 211 }
    {
        self.put(b"damaged file=");
        self.put_file(damage.file);
        self.put_labelled(b" place=", damage.place);
        self.put(b" want=");
        self.put_seen(&damage.want);
        self.put(b" found=");
        self.put_seen(&damage.found);
    }

    // Puts that there is no such table or view, of a load with the row that names it.
    fn put_no_table(&mut self, row: Option<u64>)
        requires { self.old.len + 33 ≤ 512 }
        ensures puts { Puts self.old self.new (refusal_text (no.NoTable row)) }
        ensures short { self.new.len ≤ self.old.len + 33 }
    {
        match row {
            None => self.put(b"no_table"),
            Some(row) => self.put_labelled(b"no_table row=", row),
        }
    }

    // Puts what is wrong with a schema.
    fn put_bad_schema(&mut self, reason: SchemaFault)
        requires { self.old.len + 34 ≤ 512 }
        ensures puts { Puts self.old self.new (refusal_text (no.BadSchema reason)) }
        ensures short { self.new.len ≤ self.old.len + 34 }
    {
        match reason {
            SchemaFault::BadName => self.put(b"bad_schema reason=bad_name"),
            SchemaFault::NoKey => self.put(b"bad_schema reason=no_key"),
            SchemaFault::NoValue => self.put(b"bad_schema reason=no_value"),
            SchemaFault::TooManyColumns => self.put(b"bad_schema reason=too_many_columns"),
            SchemaFault::NameTwice => self.put(b"bad_schema reason=name_twice"),
            SchemaFault::LastValue => self.put(b"bad_schema reason=last_value"),
        }
    }

    // Puts the newest version, or that there is none.
    fn put_newest(&mut self, newest: Option<u32>)
        requires { self.old.len + 28 ≤ 512 }
        ensures puts { MatchOption newest (Puts self.old self.new (codes " newest=none")) (λ version. Puts self.old self.new (codes " newest=" ++ decimal version)) }
        ensures short { self.new.len ≤ self.old.len + 28 }
    {
        match newest {
            None => self.put(b" newest=none"),
            Some(version) => self.put_labelled(b" newest=", version as u64),
        }
    }

    // Puts that the version asked for isn't there yet.
    fn put_future(&mut self, asked: VersionWord, newest: Option<u32>)
        requires { self.old.len + 65 ≤ 512 }
        ensures puts { Puts self.old self.new (refusal_text (no.Future asked newest)) }
        ensures short { self.new.len ≤ self.old.len + 65 }
    {
        match asked {
            VersionWord::Latest => {
                self.put(b"future asked=latest");
                self.put_newest(newest);
            }
            VersionWord::At(version) => {
                self.put_labelled(b"future asked=", version as u64);
                self.put_newest(newest);
            }
            VersionWord::Pin(token) => {
                self.put_labelled(b"future asked=pin:", token as u64);
                self.put_newest(newest);
            }
        }
    }

    // Puts that a lease doesn't hold any more, and which one does.
    fn put_lost(&mut self, lease: u64, holder: Option<u64>)
        requires { self.old.len + 59 ≤ 512 }
        ensures puts { Puts self.old self.new (refusal_text (no.Lost lease holder)) }
        ensures short { self.new.len ≤ self.old.len + 59 }
    {
        match holder {
            None => {
                self.put_labelled(b"lost lease=", lease);
                self.put(b" holder=none");
            }
            Some(holder) => self.put_pair(b"lost lease=", lease, b" holder=", holder),
        }
    }

    // Puts that a limit is reached.
    fn put_limit(&mut self, word: &[u8], limit: u32)
        requires { self.old.len + length word.now + 27 ≤ 512 }
        ensures puts { Puts self.old self.new (word.now ++ codes " limit=" ++ decimal limit) }
        ensures short { self.new.len ≤ self.old.len + length word.now + 27 }
    {
        self.put(word);
        self.put_labelled(b" limit=", limit as u64);
    }

    /// Puts a refusal.
    pub(crate) fn put_refusal(&mut self, refusal: &Refusal)
        requires { self.old.len + 211 ≤ 512 }
        ensures puts { Puts self.old self.new (refusal_text refusal.now) }
        ensures short { self.new.len ≤ self.old.len + 211 }
    {
        match refusal {
            Refusal::NoTable { row } => self.put_no_table(*row),
            Refusal::TableExists => self.put(b"table_exists"),
            Refusal::BadSchema { reason } => self.put_bad_schema(*reason),
            Refusal::BadRow { row, column } => {
                self.put_pair(b"bad_row row=", *row, b" column=", *column as u64);
            }
            Refusal::DuplicateKey { first, second } => {
                self.put_pair(b"duplicate_key first=", *first, b" second=", *second);
            }
            Refusal::SumBound { table, column } => {
                self.put_named(b"sum_bound table=", table);
                self.put_named(b" column=", column);
            }
            Refusal::Stale { asked, oldest } => {
                let oldest = *oldest as u64;
                self.put_pair(b"stale asked=", *asked as u64, b" oldest=", oldest);
            }
            Refusal::Future { asked, newest } => self.put_future(*asked, *newest),
            Refusal::NoColumn => self.put(b"no_column"),
            Refusal::ReplaceGroup { column } => self.put_named(b"replace_group column=", column),
            Refusal::BadDefault { column } => self.put_named(b"bad_default column=", column),
            Refusal::InView { view } => self.put_named(b"in_view view=", view),
            Refusal::BadFilter { term } => self.put_labelled(b"bad_filter term=", *term as u64),
            Refusal::BadResume => self.put(b"bad_resume"),
            Refusal::NoPin { token } => self.put_labelled(b"no_pin token=", *token as u64),
            Refusal::PinsFull { limit } => self.put_limit(b"pins_full", *limit),
            Refusal::TablesFull { limit } => self.put_limit(b"tables_full", *limit),
            Refusal::VersionsFull { limit } => self.put_limit(b"versions_full", *limit),
            Refusal::ReadFault => self.put(b"read_fault"),
            Refusal::WriteFault => self.put(b"write_fault"),
            Refusal::Closed { position } => self.put_labelled(b"closed position=", *position),
            Refusal::Damaged(damage) => self.put_damage(damage),
            Refusal::Lost { lease, holder } => self.put_lost(*lease, *holder),
            Refusal::Memory => self.put(b"memory"),
            Refusal::EpochsFull { limit } => self.put_limit(b"epochs_full", *limit),
            Refusal::Changed { epoch } => self.put_labelled(b"changed epoch=", *epoch as u64),
            Refusal::TooManyDeltas { limit } => self.put_limit(b"too_many_deltas", *limit),
        }
    }
}
