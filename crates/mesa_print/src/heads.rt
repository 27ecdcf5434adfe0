// Head lines.
ghost use Rattle.std.specs.Prelude.{◌≡◌, ◌+◌, ◌≤◌, take};
ghost use Rattle.mesa_script.specs.Replies.{head_line};
ghost use Rattle.mesa_print.specs.Lines.{Puts};

use crate::line::{HEAD_ROOM, Line};
use mesa_model::Reply;

/// Writes the head line of a command's block to the front of a buffer, and says how long it is.
/// No memory is taken.
pub fn head(
    session: u16,
    command: u32,
    position: u64,
    reply: &Reply,
    out: &mut [u8; HEAD_ROOM],
) -> usize
    ensures room { result ≤ 512 }
    ensures line { take result out.new ≡ head_line session command position reply.now }
{
    let mut line = Line { bytes: out, len: 0 };
    line.put_head(session, command, position, reply);
    line.len
}

impl Line<'_> {
    // Puts the head line of a command's block.
    fn put_head(&mut self, session: u16, command: u32, position: u64, reply: &Reply)
        requires { self.old.len + 283 ≤ 512 }
        ensures puts { Puts self.old self.new (head_line session command position reply.now) }
        ensures short { self.new.len ≤ self.old.len + 283 }
    {
        self.put_number(session as u64);
        self.put_labelled(b".", command as u64);
        self.put_labelled(b"@", position);
        self.put(b" ");
        self.put_reply(reply);
        self.put(b"\n");
    }
}
