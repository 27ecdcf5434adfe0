// The journal of a disk, of its two areas.
ghost use Rattle.std.specs.Prelude.{◌≡◌, ◌<◌, ◌≤◌, length, is_some, IfOk, IfErr, Some};
ghost use Rattle.std.specs.List.{AllByRecursion};
ghost use Rattle.mesa_disk.specs.mesa_io.Causes.{HasFaultCause};
ghost use Rattle.mesa_disk.specs.mesa_key.Spelling.{AreBytes};
ghost use Rattle.mesa_disk.specs.Image.{Image, area_of};
ghost use Rattle.mesa_disk.specs.Story.{Unmoved};
ghost use Rattle.mesa_journal.specs.Areas.{number_of};
ghost use Rattle.mesa_journal.specs.Journal.{IsJournal};
ghost use Rattle.mesa_journal.specs.Live.{FindsLive, IsScanned, IsUnread, rank_of};
ghost use Rattle.mesa_journal.specs.Read.{IsShort, bodies_of, placed_from};
ghost use Rattle.mesa_journal.specs.declared.reading.JournalError.TheVariants.{Fault, Memory};

use crate::reading::{damage_at, parse, read_area, whole_body};
use crate::{JournalError, JournalRead, number_in};
use mesa_disk::{Area, Disk, Made};
use std::alloc::Global;

/// The journal of a disk.
#[derive(Drop)]
pub struct LiveJournal {
    /// The area whose bodies count.
    pub live: Area,
    /// The number of the checkpoint that is its first body; 0 without one.
    pub number: u32,
    /// Whether the other area holds a body.
    pub holds: bool,
    pub read: JournalRead,
}

/// The bodies of the live area; or the damage of either area, that of area 0 first.
pub fn read_live<M: Made, D: Disk<M>>(
    alloc: Global,
    disk: &mut D,
) -> Result<LiveJournal, (Area, JournalError)>
    ensures found { (i : Image) → (D.story disk.old).told ≡ Some i → FindsLive i result }
    ensures short { IfErr result (λ e. IsShort e.1) }
    ensures bytes { IfOk result (λ x. AllByRecursion AreBytes (bodies_of x.read.bodies)) }

    // A gate stands at the end, in an area of more than one byte.
    ensures gate { IfOk result (λ x. 1 < (D.story disk.old).len x.live → x.read.end < (D.story disk.old).len x.live) }
    ensures none { IfOk result (λ x. (D.story disk.old).len x.live ≤ 1 → x.read.end ≡ 0) }

    ensures unmoved { Unmoved (D.story disk.old) (D.story disk.new) }
    ensures cause { HasFaultCause (λ e. e.1 ≡ Fault) (D.story disk.old).faults (D.story disk.new).faults result }
    ensures read_cause { (D.story disk.new).read_faults ≡ (D.story disk.old).read_faults }
{
    let (zero, first) = scan_area(alloc, disk, Area::Zero)?;
    let (one, second) = scan_area(alloc, disk, Area::One)?;
    if rank(second) > rank(first) {
        return live_in(alloc, Area::One, &one, second, first);
    }
    live_in(alloc, Area::Zero, &zero, first, second)
}

// The bytes of an area that is whole, and the number of its first body, if it has one.
fn scan_area<M: Made, D: Disk<M>>(
    alloc: Global,
    disk: &mut D,
    area: Area,
) -> Result<(Vec<u8>, Option<u32>), (Area, JournalError)>
    ensures bytes { IfOk result (λ x. (i : Image) → (D.story disk.old).told ≡ Some i → x.0.items ≡ area_of area i) }
    ensures len { IfOk result (λ x. length x.0.items ≡ (D.story disk.old).len area) }
    ensures scanned { IfOk result (λ x. IsScanned x.0.items x.1) }
    ensures area { IfErr result (λ e. e.0 ≡ area) }
    ensures unread { IfErr result (λ e. (i : Image) → (D.story disk.old).told ≡ Some i → IsUnread (area_of area i) e.1) }
    ensures short { IfErr result (λ e. IsShort e.1) }
    ensures unmoved { Unmoved (D.story disk.old) (D.story disk.new) }
    ensures cause { HasFaultCause (λ e. e.1 ≡ Fault) (D.story disk.old).faults (D.story disk.new).faults result }
    ensures read_cause { (D.story disk.new).read_faults ≡ (D.story disk.old).read_faults }
{
    let bytes = match read_area(alloc, disk, area) {
        Ok(bytes) => bytes,
        Err(error) => return Err((area, error)),
    };
    match scan(&bytes) {
        Ok(first) => Ok((bytes, first)),
        Err(error) => Err((area, error)),
    }
}

// The number of the first body of an area, if it has one. No body is copied.
fn scan(area: &[u8]) -> Result<Option<u32>, JournalError>
    ensures scanned { IfOk result (λ first. IsScanned area.now first) }
    ensures unread { IfErr result (λ e. IsUnread area.now e) }
    ensures short { IfErr result IsShort }
    ensures no_fault { IfErr result (λ e. e ≡ Fault → ⊥) }
{
    let mut first = None;
    let mut at = 0;
    if area.len() < 2 {
        return Ok(None);
    }
    while area[at] == 1 {
        let tail = &area[at + 1..];
        let Some(body) = whole_body(tail) else {
            return Err(damage_at(area, at));
        };
        first = first.or(Some(number_in(body)));
        at += body.len() + 5;
    }
    Ok(first)
}

// How an area ranks by the number of its first body.
fn rank(first: Option<u32>) -> u64
    ensures { result ≡ rank_of first }
{
    match first {
        None => 0,
        Some(number) => u64::from(number) + 1,
    }
}

// The journal of the area that is live, which is whole; the numbers are those of its first body and of the
// other area's.
fn live_in(
    alloc: Global,
    live: Area,
    bytes: &[u8],
    first: Option<u32>,
    other: Option<u32>,
) -> Result<LiveJournal, (Area, JournalError)>
    requires { IsScanned bytes.now first }
    ensures live { IfOk result (λ x. x.live ≡ live) }
    ensures number { IfOk result (λ x. x.number ≡ number_of (bodies_of x.read.bodies)) }
    ensures holds { IfOk result (λ x. x.holds ≡ is_some other) }
    ensures whole { IfOk result (λ x. IsJournal bytes.now (bodies_of x.read.bodies) x.read.end) }
    ensures places { IfOk result (λ x. x.read.bodies ≡ placed_from 0 (bodies_of x.read.bodies)) }
    ensures bytes { IfOk result (λ x. AllByRecursion AreBytes (bodies_of x.read.bodies)) }
    ensures gate { IfOk result (λ x. 1 < length bytes.now → x.read.end < length bytes.now) }
    ensures none { IfOk result (λ x. length bytes.now ≤ 1 → x.read.end ≡ 0) }
    ensures memory { IfErr result (λ e. e.1 ≡ Memory) }
{
    match parse(alloc, bytes) {
        Ok(read) => Ok(LiveJournal {
            live,
            number: first.unwrap_or(0),
            holds: other.is_some(),
            read,
        }),
        Err(error) => Err((live, error)),
    }
}
