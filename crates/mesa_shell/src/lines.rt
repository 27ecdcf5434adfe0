// What a call tells that runs nothing.
ghost use Rattle.std.specs.Prelude.{◌≡◌, ◌≤◌, ◌++◌, codes, decimal, length};
ghost use Rattle.std.specs.Int.{w64, to_be_bytes};
ghost use Rattle.mesa_session.specs.mesa_filter.Hex.{hex_of};
ghost use Rattle.mesa_print.specs.Printed.{Printed};
ghost use Rattle.mesa_script.specs.Errors.{error_text, reason_word as word_of};
ghost use Rattle.mesa_script.specs.Replies.{damage_text, seen_text};
ghost use Rattle.mesa_shell.specs.ExitLines.{open_text};

use mesa_file::{Damage, FileId, Seen};
use mesa_io::Sink;
use mesa_print::Printer;
use mesa_recover::OpenError;
use mesa_script::{Reason, ScriptError};

// ---- a script is refused

// A reason in a word.
fn reason_word(reason: Reason) -> &'static [u8]
    ensures { result.now ≡ word_of reason }
{
    match reason {
        Reason::Unknown => b"unknown",
        Reason::Fields => b"fields",
        Reason::Order => b"order",
        Reason::Word => b"word",
        Reason::Number => b"number",
    }
}

// Prints a place and a reason.
fn put_place<K: Sink>(printer: &mut Printer<K>, place: u64, word: &[u8])
    ensures { Printed K.held K.faults printer.old printer.new (codes "place=" ++ decimal place ++ codes " reason=" ++ word.now) }
{
    printer.put(b"place=");
    printer.put_number(place);
    printer.put(b" reason=");
    printer.put(word);
}

/// Prints the place and the reason of a refused script.
pub(crate) fn put_script_error<K: Sink>(printer: &mut Printer<K>, error: &ScriptError)
    ensures { Printed K.held K.faults printer.old printer.new (error_text error.now) }
{
    match error {
        ScriptError::BadRecord { place, reason } => {
            put_place(printer, *place, reason_word(*reason));
        }
        ScriptError::TooManyCommands { place } => put_place(printer, *place, b"commands"),
        ScriptError::TooManySessions { place } => put_place(printer, *place, b"sessions"),
        ScriptError::Memory => printer.put(b"memory"),
    }
}

// ---- a store isn't opened

/// How many bytes a digest has.
pub(crate) const DIGEST: usize = 32;

/// Prints bytes in hexadecimal: at most as many as a digest has.
pub(crate) fn put_hex<K: Sink>(printer: &mut Printer<K>, bytes: &[u8])
    requires { length bytes.now ≤ 32 }
    ensures { Printed K.held K.faults printer.old printer.new (hex_of bytes.now) }
{
    let mut room = [0; 2 * DIGEST];
    let digits = &mut room[..2 * bytes.len()];
    match hex::encode_to_slice(bytes, digits) {
        Ok(()) => printer.put(digits),
        Err(_) => unreachable!(),
    }
}

// Prints a label and a number.
fn put_labelled<K: Sink>(printer: &mut Printer<K>, label: &[u8], number: u64)
    ensures { Printed K.held K.faults printer.old printer.new (label.now ++ decimal number) }
{
    printer.put(label);
    printer.put_number(number);
}

// Prints what was found at a place, or wanted there.
fn put_seen<K: Sink>(printer: &mut Printer<K>, seen: &Seen)
    ensures { Printed K.held K.faults printer.old printer.new (seen_text seen.now) }
{
    match seen {
        Seen::Length(length) => put_labelled(printer, b"length:", *length),
        Seen::Digest(digest) => {
            printer.put(b"sha256:");
            put_hex(printer, digest);
        }
        Seen::Absent => printer.put(b"absent"),
        Seen::Fits => printer.put(b"fits"),
        Seen::Misfit(place) => put_labelled(printer, b"misfit:", *place),
    }
}

// Prints the id of a file, in sixteen hexadecimal digits.
fn put_file<K: Sink>(printer: &mut Printer<K>, file: FileId)
    ensures { Printed K.held K.faults printer.old printer.new (hex_of (to_be_bytes w64 file)) }
{
    put_hex(printer, &file.number().to_be_bytes());
}

// Prints a damaged file, the place of the damage, and what differs there.
fn put_damage<K: Sink>(printer: &mut Printer<K>, damage: &Damage)
    ensures { Printed K.held K.faults printer.old printer.new (damage_text damage.now) }
{
    printer.put(b"damaged file=");
    put_file(printer, damage.file);
    put_labelled(printer, b" place=", damage.place);
    printer.put(b" want=");
    put_seen(printer, &damage.want);
    printer.put(b" found=");
    put_seen(printer, &damage.found);
}

// Prints a damaged journal, the place of the damage, and what differs there.
fn put_journal<K: Sink>(printer: &mut Printer<K>, area: u8, at: u64, want: &Seen, found: &Seen)
    ensures { Printed K.held K.faults printer.old printer.new (codes "damaged journal=" ++ decimal area ++ codes " at=" ++ decimal at ++ codes " want=" ++ seen_text want.now ++ codes " found=" ++ seen_text found.now) }
{
    put_labelled(printer, b"damaged journal=", area as u64);
    printer.put(b" at=");
    printer.put_number(at);
    printer.put(b" want=");
    put_seen(printer, want);
    printer.put(b" found=");
    put_seen(printer, found);
}

/// Prints why a store isn't opened.
pub(crate) fn put_open_error<K: Sink>(printer: &mut Printer<K>, error: &OpenError)
    ensures { Printed K.held K.faults printer.old printer.new (open_text error.now) }
{
    match error {
        OpenError::Fault => printer.put(b"disk fault"),
        OpenError::Journal {
            area,
            at,
            want,
            found,
        } => put_journal(printer, *area, *at, want, found),
        OpenError::File(damage) => put_damage(printer, damage),
        OpenError::RunsFull => printer.put(b"runs full"),
        OpenError::Memory => printer.put(b"memory"),
    }
}
