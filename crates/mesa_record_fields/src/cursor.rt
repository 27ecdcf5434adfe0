// The bytes of a record, read field by field.
ghost use Rattle.std.specs.Prelude.{◌≡◌, IfOk, length};
ghost use Rattle.mesa_record_fields.specs.Reading.{Gives, GivesAs, piece_at, byte_at, half_at, word_at, long_at, wide_at, wide_amount_at, amount_at, format_at, format_of, text_at, name_at, key_at, columns_at, count_at, meaning, flag_of};
ghost use Rattle.mesa_columns.specs.Codes.{agg_of, kind_of};

use crate::{Edition, RecordError};
use mesa_columns::{
    Agg, Amount, Format, Items, KeyBytes, KeyType, Name, NameError, agg_of_byte, kind_of_byte,
};
use std::alloc::Global;
use std::marker::Model;

/// What is left of a record's bytes.
#[derive(Drop)]
pub struct Cursor<'a> {
    whole: &'a [u8],
    at: usize,
}

impl<'a> Model for Cursor<'a> {
    ghost use Rattle.std.specs.Prelude.{◌≤◌, drop, length};
    ghost use Rattle.mesa_record_fields.specs.Reading.{Left};

    ghost Value = { Left };

    ghost view = { λ c. record { at = c.at; bytes = drop c.at c.whole.now } };

    ghost invariant = { λ c. c.at ≤ length c.whole.now };
}

impl<'a> Cursor<'a> {
    pub fn new(whole: &'a [u8]) -> Self
        ensures { result ≡ record { at = 0; bytes = whole.now } }
    {
        Cursor { whole, at: 0 }
    }

    /// The place of the next field.
    pub fn at(&self) -> u64
        ensures { result ≡ self.now.at }
    {
        self.at as u64
    }

    /// What is left.
    pub fn left(&self) -> &'a [u8]
        ensures { result.now ≡ self.now.bytes }
    {
        &self.whole[self.at..]
    }

    // The field of so many bytes.
    pub(crate) fn piece(&mut self, len: usize) -> Result<&'a [u8], RecordError>
        ensures gives { GivesAs (λ p. p.now) result self.new (piece_at len self.old) }
        ensures len { IfOk result (λ p. length p.now ≡ len) }
    {
        let left = self.left();
        if left.len() < len {
            return Err(RecordError::Truncated { at: self.at() });
        }
        self.at += len;
        Ok(&left[..len])
    }

    pub fn byte(&mut self) -> Result<u8, RecordError>
        ensures { Gives result self.new (byte_at self.old) }
    {
        let piece = self.piece(1)?;
        Ok(piece[0])
    }

    pub fn half(&mut self) -> Result<u16, RecordError>
        ensures { Gives result self.new (half_at self.old) }
    {
        let piece = self.piece(2)?;
        Ok(u16::from_be_bytes([piece[0], piece[1]]))
    }

    pub fn word(&mut self) -> Result<u32, RecordError>
        ensures { Gives result self.new (word_at self.old) }
    {
        let piece = self.piece(4)?;
        Ok(u32::from_be_bytes([piece[0], piece[1], piece[2], piece[3]]))
    }

    pub(crate) fn long(&mut self) -> Result<u64, RecordError>
        ensures { Gives result self.new (long_at self.old) }
    {
        let p = self.piece(8)?;
        Ok(u64::from_be_bytes([p[0], p[1], p[2], p[3], p[4], p[5], p[6], p[7]]))
    }

    pub(crate) fn wide(&mut self) -> Result<u128, RecordError>
        ensures { Gives result self.new (wide_at self.old) }
    {
        let p = self.piece(16)?;
        Ok(u128::from_be_bytes([
            p[0], p[1], p[2], p[3], p[4], p[5], p[6], p[7], p[8], p[9], p[10], p[11], p[12], p[13],
            p[14], p[15],
        ]))
    }

    pub(crate) fn wide_amount(&mut self) -> Result<Amount, RecordError>
        ensures { Gives result self.new (wide_amount_at self.old) }
    {
        let p = self.piece(16)?;
        Ok(Amount::from_be_bytes([
            p[0], p[1], p[2], p[3], p[4], p[5], p[6], p[7], p[8], p[9], p[10], p[11], p[12], p[13],
            p[14], p[15],
        ]))
    }

    // A file's format, for which the first edition has no field.
    pub(crate) fn format(&mut self, edition: Edition) -> Result<Format, RecordError>
        ensures { Gives result self.new (format_at edition self.old) }
    {
        match edition {
            Edition::First => Ok(Format::One),
            Edition::Second | Edition::Third | Edition::Fourth => self.told_format(),
        }
    }

    fn told_format(&mut self) -> Result<Format, RecordError>
        ensures { Gives result self.new (meaning format_of self.old) }
    {
        let at = self.at();
        match self.byte()? {
            1 => Ok(Format::One),
            2 => Ok(Format::Two),
            _ => Err(RecordError::BadKind { at }),
        }
    }

    pub(crate) fn amount(&mut self) -> Result<i64, RecordError>
        ensures { Gives result self.new (amount_at self.old) }
    {
        let p = self.piece(8)?;
        Ok(i64::from_be_bytes([p[0], p[1], p[2], p[3], p[4], p[5], p[6], p[7]]))
    }

    // A text of at most 255 bytes.
    pub(crate) fn text(&mut self) -> Result<&'a [u8], RecordError>
        ensures { GivesAs (λ t. t.now) result self.new (text_at self.old) }
    {
        let len = match self.left() {
            [len, ..] => *len,
            [] => 0,
        };
        let text = self.piece(len as usize + 1)?;
        Ok(&text[1..])
    }

    pub fn name(&mut self, alloc: Global) -> Result<Name, RecordError>
        ensures { Gives result self.new (name_at self.old) }
    {
        let at = self.at();
        let text = self.text()?;
        match Name::read(alloc, text) {
            Ok(name) => Ok(name),
            Err(NameError::Bad) => Err(RecordError::BadField { at }),
            Err(NameError::Memory) => Err(RecordError::Memory),
        }
    }

    // An encoded key.
    pub(crate) fn key(&mut self, alloc: Global) -> Result<KeyBytes, RecordError>
        ensures { Gives result self.new (key_at self.old) }
    {
        let len = match self.left() {
            [high, low, ..] => u16::from_be_bytes([*high, *low]),
            [high] => u16::from_be_bytes([*high, 0]),
            [] => 0,
        };
        let key = self.piece(len as usize + 2)?;
        Ok(Items::from_bytes(alloc, &key[2..])?)
    }

    // How many columns follow.
    pub(crate) fn columns(&mut self) -> Result<u8, RecordError>
        ensures { Gives result self.new (columns_at self.old) }
    {
        let at = self.at();
        let count = self.byte()?;
        if 1 <= count && count <= 16 {
            return Ok(count);
        }
        Err(RecordError::BadField { at })
    }

    /// How many fields follow, at most so many.
    pub fn count(&mut self, most: u8) -> Result<u8, RecordError>
        ensures { Gives result self.new (count_at most self.old) }
    {
        let at = self.at();
        let count = self.byte()?;
        if count <= most {
            return Ok(count);
        }
        Err(RecordError::BadField { at })
    }

    pub(crate) fn kind(&mut self) -> Result<KeyType, RecordError>
        ensures { Gives result self.new (meaning kind_of self.old) }
    {
        let at = self.at();
        match kind_of_byte(self.byte()?) {
            Some(kind) => Ok(kind),
            None => Err(RecordError::BadKind { at }),
        }
    }

    pub(crate) fn agg(&mut self) -> Result<Agg, RecordError>
        ensures { Gives result self.new (meaning agg_of self.old) }
    {
        let at = self.at();
        match agg_of_byte(self.byte()?) {
            Some(agg) => Ok(agg),
            None => Err(RecordError::BadKind { at }),
        }
    }

    pub fn flag(&mut self) -> Result<bool, RecordError>
        ensures { Gives result self.new (meaning flag_of self.old) }
    {
        let at = self.at();
        match self.byte()? {
            0 => Ok(false),
            1 => Ok(true),
            _ => Err(RecordError::BadKind { at }),
        }
    }
}
