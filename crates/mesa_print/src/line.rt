// A line in a buffer of fixed length.
ghost use Rattle.std.specs.Prelude.{◌≡◌, ◌+◌, ◌*◌, ◌≤◌, ◌++◌, length, decimal};
ghost use Rattle.mesa_filter.specs.Hex.{hex_of};
ghost use Rattle.mesa_print.specs.Lines.{Puts};

use itoa::Buffer;
use mesa_columns::Name;

/// The room for a head line, in bytes: no head line is longer.
pub const HEAD_ROOM: usize = 512;

/// A line that begins at the start of a buffer.
#[derive(Drop)]
pub(crate) struct Line<'a> {
    pub(crate) bytes: &'a mut [u8; HEAD_ROOM],
    pub(crate) len: usize,
}

impl Line<'_> {
    /// Puts bytes behind the line.
    pub(crate) fn put(&mut self, bytes: &[u8])
        requires { self.old.len + length bytes.now ≤ 512 }
        ensures puts { Puts self.old self.new bytes.now }
        ensures len { self.new.len ≡ self.old.len + length bytes.now }
    {
        let end = self.len + bytes.len();
        let line = &mut *self.bytes;
        line[self.len..end].copy_from_slice(bytes);
        self.len = end;
    }

    /// Puts a number in shortest decimal, which has at most 20 digits.
    pub(crate) fn put_number(&mut self, number: u64)
        requires { self.old.len + 20 ≤ 512 }
        ensures puts { Puts self.old self.new (decimal number) }
        ensures short { self.new.len ≤ self.old.len + 20 }
    {
        let mut buffer = Buffer::new();
        self.put(buffer.format(number).as_bytes());
    }

    /// Puts bytes in hexadecimal.
    pub(crate) fn put_hex(&mut self, bytes: &[u8])
        requires { self.old.len + 2 * length bytes.now ≤ 512 }
        ensures puts { Puts self.old self.new (hex_of bytes.now) }
        ensures len { self.new.len ≡ self.old.len + 2 * length bytes.now }
    {
        let end = self.len + 2 * bytes.len();
        let line = &mut *self.bytes;
        match hex::encode_to_slice(bytes, &mut line[self.len..end]) {
            Ok(()) => self.len = end,
            Err(_) => unreachable!(),
        }
    }

    /// Puts a label and a name, which has at most 32 bytes.
    pub(crate) fn put_named(&mut self, label: &[u8], name: &Name)
        requires { self.old.len + length label.now + 32 ≤ 512 }
        ensures puts { Puts self.old self.new (label.now ++ name.now) }
        ensures short { self.new.len ≤ self.old.len + length label.now + 32 }
    {
        self.put(label);
        self.put(name.bytes());
    }

    /// Puts a label and a number.
    pub(crate) fn put_labelled(&mut self, label: &[u8], number: u64)
        requires { self.old.len + length label.now + 20 ≤ 512 }
        ensures puts { Puts self.old self.new (label.now ++ decimal number) }
        ensures short { self.new.len ≤ self.old.len + length label.now + 20 }
    {
        self.put(label);
        self.put_number(number);
    }

    /// Puts two labelled numbers.
    pub(crate) fn put_pair(&mut self, first: &[u8], number: u64, second: &[u8], other: u64)
        requires { self.old.len + length first.now + length second.now + 40 ≤ 512 }
        ensures puts { Puts self.old self.new (first.now ++ decimal number ++ second.now ++ decimal other) }
        ensures short { self.new.len ≤ self.old.len + length first.now + length second.now + 40 }
    {
        self.put_labelled(first, number);
        self.put_labelled(second, other);
    }
}
