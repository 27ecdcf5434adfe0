// What a check tells of a store.
ghost use Rattle.std.specs.Prelude.{◌++◌, codes, decimal};
ghost use Rattle.mesa_shell.specs.ExitLines.{shown_key, verdict_text};
ghost use Rattle.mesa_session.specs.mesa_filter.Hex.{hex_of};
ghost use Rattle.mesa_print.specs.Printed.{Printed};
ghost use Rattle.mesa_check.specs.Verdict.{fault_told};

use crate::lines::{DIGEST, put_hex};
use mesa_check::Verdict;
use mesa_columns::Name;
use mesa_io::Sink;
use mesa_key::KeyBytes;
use mesa_print::Printer;

// Prints a key in hexadecimal, in pieces.
fn put_key<K: Sink>(printer: &mut Printer<K>, key: &[u8])
    ensures { Printed K.held K.faults printer.old printer.new (hex_of key.now) }
{
    'pieces: for piece in key.chunks(DIGEST) {
        put_hex(printer, piece);
    }
}

// Prints the key that shows a fault, if a single one does.
fn put_shown_key<K: Sink>(printer: &mut Printer<K>, key: &Option<KeyBytes>)
    ensures { Printed K.held K.faults printer.old printer.new (shown_key key.now) }
{
    match key {
        Some(key) => put_key(printer, key.as_slice()),
        None => printer.put(b"-"),
    }
}

// Prints a table and a range of its versions.
fn put_range<K: Sink>(printer: &mut Printer<K>, table: &Name, from: u32, to: u32)
    ensures { Printed K.held K.faults printer.old printer.new (codes "unsound table=" ++ table.now ++ codes " range=[" ++ decimal from ++ codes "," ++ decimal to) }
{
    printer.put(b"unsound table=");
    printer.put(table.bytes());
    printer.put(b" range=[");
    printer.put_number(from as u64);
    printer.put(b",");
    printer.put_number(to as u64);
}

/// Prints that a store is sound, or its first fault.
pub(crate) fn put_verdict<K: Sink>(printer: &mut Printer<K>, verdict: &Verdict)
    ensures { Printed K.held K.faults printer.old printer.new (verdict_text (fault_told verdict.now)) }
{
    match verdict {
        Verdict::Sound => printer.put(b"sound"),
        Verdict::Unsound {
            table,
            from,
            to,
            key,
        } => {
            put_range(printer, table, *from, *to);
            printer.put(b"] key=");
            put_shown_key(printer, key);
        }
    }
}
