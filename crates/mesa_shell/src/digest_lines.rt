// What a call tells that printed the digests of a relation.
ghost use Rattle.std.specs.Prelude.{◌≡◌, ◌++◌, codes, decimal};
ghost use Rattle.mesa_shell.specs.Exit as spec;
ghost use Rattle.mesa_shell.specs.ExitLines.{answered_status, digest_line, digests_text};
ghost use Rattle.mesa_shell.specs.Ports.{ports};
ghost use Rattle.mesa_print.specs.Printed.{Printed};

use crate::exit::without_run;
use crate::lines::put_hex;
use crate::{Devices, Done, statuses};
use mesa_digest::DigestPair;
use mesa_disk::{Bench, Disk, Made};
use mesa_io::Sink;
use mesa_print::Printer;
use std::alloc::Global;

// Prints a relation's name, and its version.
fn put_relation<K: Sink>(printer: &mut Printer<K>, relation: &[u8], version: u32)
    ensures { Printed K.held K.faults printer.old printer.new (codes "digest " ++ relation.now ++ codes " version=" ++ decimal version) }
{
    printer.put(b"digest ");
    printer.put(relation);
    printer.put(b" version=");
    printer.put_number(version as u64);
}

// Prints how many rows there are, and their two digests.
fn put_pair<K: Sink>(printer: &mut Printer<K>, pair: &DigestPair)
    ensures { Printed K.held K.faults printer.old printer.new (digests_text pair.now.rows pair.now.ordered pair.now.set) }
{
    printer.put(b" rows=");
    printer.put_number(pair.rows);
    printer.put(b" ordered=");
    put_hex(printer, &pair.ordered);
    printer.put(b" set=");
    put_hex(printer, &pair.set.to_be_bytes());
}

/// Ends a call that has digested a relation at a version.
pub fn ended_digest<M: Made, D: Disk<M>, K: Sink, B: Bench<M>>(
    alloc: Global,
    given: Devices<K, D, B>,
    relation: &[u8],
    version: u32,
    pair: &DigestPair,
) -> Done<K, D, B>
    ensures disk { result.disk ≡ given.disk }
    ensures ended { spec.Ended (ports K.held K.faults D.story M.bytes B.faults) given result answered_status (digest_line relation.now version pair.now.rows pair.now.ordered pair.now.set) }
{
    let Devices { out, disk, benches } = given;
    let mut printer = Printer {
        sink: out,
        broken: false,
    };
    put_relation(&mut printer, relation, version);
    put_pair(&mut printer, pair);
    printer.put(b"\n");
    without_run(alloc, printer, disk, benches, statuses::DIGESTED)
}
