// Replies on a line.
ghost use Rattle.std.specs.Prelude.{◌+◌, ◌≤◌};
ghost use Rattle.mesa_script.specs.Replies.{expired_word, reply_text, rows_text};
ghost use Rattle.mesa_print.specs.Lines.{Puts};

use crate::line::Line;
use mesa_columns::Name;
use mesa_model::Reply;

impl Line<'_> {
    // Puts the head of a query's answer.
    fn put_rows(&mut self, rows: u64, version: u32, more: bool)
        requires { self.old.len + 59 ≤ 512 }
        ensures puts { Puts self.old self.new (rows_text rows version more) }
        ensures short { self.new.len ≤ self.old.len + 59 }
    {
        self.put_pair(b"rows ", rows, b" version=", version as u64);
        if more {
            self.put(b" more");
        }
    }

    // Puts which table an expiry was of, if it wasn't of all.
    fn put_expired(&mut self, table: &Option<Name>)
        requires { self.old.len + 40 ≤ 512 }
        ensures puts { Puts self.old self.new (expired_word table.now) }
        ensures short { self.new.len ≤ self.old.len + 40 }
    {
        match table {
            None => self.put(b"expired"),
            Some(name) => self.put_named(b"expired ", name),
        }
    }

    /// Puts a reply, without its rows.
    pub(crate) fn put_reply(&mut self, reply: &Reply)
        requires { self.old.len + 219 ≤ 512 }
        ensures puts { Puts self.old self.new (reply_text reply.now) }
        ensures short { self.new.len ≤ self.old.len + 219 }
    {
        match reply {
            Reply::Table { name } => self.put_named(b"table ", name),
            Reply::View { name } => self.put_named(b"view ", name),
            Reply::Altered { table, epoch } => {
                self.put_named(b"altered ", table);
                self.put_labelled(b" epoch=", *epoch as u64);
            }
            Reply::Loaded { version, rows } => {
                self.put_pair(b"loaded version=", *version as u64, b" rows=", *rows);
            }
            Reply::Page(page) => {
                self.put_rows(page.rows.len() as u64, page.version, page.resume.is_some());
            }
            Reply::Rows {
                rows,
                version,
                more,
            } => self.put_rows(*rows as u64, *version, *more),
            Reply::Spans { ranges, by: _ } => self.put_labelled(b"spans ", ranges.len() as u64),
            Reply::Pinned { token, version } => {
                let version = *version as u64;
                self.put_pair(b"pinned token=", *token as u64, b" version=", version);
            }
            Reply::Released { token } => {
                self.put_labelled(b"released token=", *token as u64);
            }
            Reply::Expired { table, oldest } => {
                self.put_expired(table);
                self.put_labelled(b" oldest=", *oldest as u64);
            }
            Reply::Swapped { from, to } => {
                self.put_pair(b"swapped ", *from as u64, b" ", *to as u64);
            }
            Reply::Recast { table, epoch } => {
                self.put_named(b"recast ", table);
                self.put_labelled(b" epoch=", *epoch as u64);
            }
            Reply::Idle => self.put(b"idle"),
            Reply::Busy { lease } => self.put_labelled(b"busy lease=", *lease),
            Reply::Refused(refusal) => {
                self.put(b"refused ");
                self.put_refusal(refusal);
            }
        }
    }
}
