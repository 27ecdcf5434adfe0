// Printing onto a sink, without memory.
ghost use Rattle.std.specs.Prelude.{◌≡◌, ◌≤◌, IfSome, decimal, take, ◌++◌};
ghost use Rattle.mesa_print.specs.Printed.{Printed};
ghost use Rattle.mesa_script.specs.Replies.{head_line};

use crate::{HEAD_ROOM, head};
use itoa::Buffer;
use mesa_io::{Sink, write_all};
use mesa_model::Reply;

// The longest block that goes out by one call of the sink, in bytes: no more reaches a pipe whole.
const BLOCK_ROOM: usize = 4096;

// Puts two texts, one behind the other, to the front of a buffer, and says how long they are together;
// none where they don't fit.
fn join(front: &[u8], back: &[u8], out: &mut [u8; BLOCK_ROOM]) -> Option<usize>
    ensures room { IfSome result (λ n. n ≤ 4096) }
    ensures text { IfSome result (λ n. take n out.new ≡ front.now ++ back.now) }
{
    let (start, length) = (front.len(), back.len());
    if start > BLOCK_ROOM || length > BLOCK_ROOM - start {
        return None;
    }
    let out = &mut *out;
    out[..start].copy_from_slice(front);
    out[start..start + length].copy_from_slice(back);
    Some(start + length)
}

/// A sink that is given nothing more once it has failed.
#[derive(Drop)]
pub struct Printer<K> {
    pub sink: K,
    pub broken: bool,
}

impl<K: Sink> Printer<K> {
    /// Prints bytes.
    pub fn put(&mut self, bytes: &[u8])
        ensures { Printed K.held K.faults self.old self.new bytes.now }
    {
        if self.broken {
            return;
        }
        if let Err(fault) = write_all(&mut self.sink, bytes) {
            let _written = fault.written;
            self.broken = true;
        }
    }

    /// Prints a number in shortest decimal.
    pub fn put_number(&mut self, number: u64)
        ensures { Printed K.held K.faults self.old self.new (decimal number) }
    {
        let mut buffer = Buffer::new();
        self.put(buffer.format(number).as_bytes());
    }

    /// Prints a command's block: its head line, and a body that is made already. Who reads what is
    /// printed gets a short block whole: it goes out by one call of the sink, and so does each part of a
    /// longer one.
    pub fn put_block(
        &mut self,
        session: u16,
        number: u32,
        position: u64,
        reply: &Reply,
        body: &[u8],
    )
        ensures { Printed K.held K.faults self.old self.new (head_line session number position reply.now ++ body.now) }
    {
        let mut line = [0; HEAD_ROOM];
        let length = head(session, number, position, reply, &mut line);
        let line = &line[..length];
        let mut block = [0; BLOCK_ROOM];
        match join(line, body, &mut block) {
            Some(length) => self.put(&block[..length]),
            None => {
                self.put(line);
                self.put(body);
            }
        }
    }
}
