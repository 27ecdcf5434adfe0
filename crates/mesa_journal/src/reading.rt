ghost use Rattle.std.specs.Prelude.{◌≡◌, ◌⊎◌, ◌+◌, ◌^◌, ◌<◌, ◌≤◌, ◌++◌, ℕ, List, drop, length, Some, IfOk, IfErr, IfSome, IsNone};
ghost use Rattle.std.specs.List.{AllByRecursion};
ghost use Rattle.mesa_disk.specs.mesa_io.Causes.{HasFaultCause};
ghost use Rattle.mesa_disk.specs.Image.{Image, area_of};
ghost use Rattle.mesa_disk.specs.Story.{Unmoved};
ghost use Rattle.mesa_disk.specs.mesa_key.Spelling.{AreBytes};
ghost use Rattle.mesa_journal.specs.Journal.{IsJournal, IsDamaged, word, needed_of};
ghost use Rattle.mesa_journal.specs.Read.{bodies_of, Finds, Agrees, AgreesOnDamage, IsShort};
ghost use Rattle.mesa_journal.specs.declared.reading.JournalError.TheVariants.{Damaged, Fault, Memory as WantOfMemory};

use mesa_disk::{Area, ByteList, Disk, Made};
use mesa_list::{Items, TryCopy};
use std::alloc::{AllocError, AllocFailed, Global};
use thiserror::Error;

/// The body of a record that counts, and the place of its gate.
#[derive(Drop)]
pub struct Body {
    pub at: u64,
    pub bytes: ByteList,
}

impl TryCopy for Body {
    fn copy(&self) -> Result<Self, AllocError> {
        Ok(Body {
            at: self.at,
            bytes: self.bytes.copy()?,
        })
    }
}

/// The bodies of the records that count, in order, and the place of the gate that ends them.
#[derive(Drop)]
pub struct JournalRead {
    pub bodies: Items<Body>,
    pub end: u64,
}

impl TryCopy for JournalRead {
    fn copy(&self) -> Result<Self, AllocError> {
        Ok(JournalRead {
            bodies: self.bodies.copy()?,
            end: self.end,
        })
    }
}

/// Why a journal was not read.
#[derive(Debug, Drop, Error)]
pub enum JournalError {
    /// The disk failed, and its count of faults rose.
    #[error("the disk failed")]
    Fault,
    /// The gate at `at` is open, and its record with the next gate isn't whole: the area needs `want`
    /// bytes and has `found`.
    #[error("the record at {at} needs {want} bytes, and {found} are there")]
    Damaged { at: u64, want: u64, found: u64 },
    /// Want of memory.
    #[error("no memory")]
    Memory,
}

impl From<AllocError> for JournalError {
    ghost from_gives = { λ _ e. e ≡ WantOfMemory };

    fn from(_: AllocError) -> Self {
        JournalError::Memory
    }
}

impl<T: Drop> From<AllocFailed<T>> for JournalError {
    ghost from_gives = { λ _ e. e ≡ WantOfMemory };

    fn from(_: AllocFailed<T>) -> Self {
        JournalError::Memory
    }
}

/// The bodies of the records that count, and where they end; or the place of damage.
pub fn read_journal<M: Made, D: Disk<M>>(
    alloc: Global,
    disk: &mut D,
    area: Area,
) -> Result<JournalRead, JournalError>
    ensures found { (i : Image) → (D.story disk.old).told ≡ Some i → Finds (area_of area i) result }

    // What is whole is read so, and what is damaged is answered so, but for a fault or want of memory.
    ensures whole { (i : Image) (bodies : List (List ℕ)) (end : ℕ) → (D.story disk.old).told ≡ Some i → IsJournal (area_of area i) bodies end → Agrees bodies end result }
    ensures damaged { (i : Image) (at want : ℕ) → (D.story disk.old).told ≡ Some i → IsDamaged (area_of area i) at want → AgreesOnDamage (area_of area i) at want result }

    ensures short { IfErr result IsShort }
    ensures bytes { IfOk result (λ read. AllByRecursion AreBytes (bodies_of read.bodies)) }

    // A gate stands at the end, in an area of more than one byte.
    ensures gate { IfOk result (λ read. 1 < (D.story disk.old).len area → read.end < (D.story disk.old).len area) }
    ensures none { IfOk result (λ read. (D.story disk.old).len area ≤ 1 → read.end ≡ 0) }

    ensures unmoved { Unmoved (D.story disk.old) (D.story disk.new) }
    ensures cause { HasFaultCause (λ e. e ≡ Fault) (D.story disk.old).faults (D.story disk.new).faults result }
    ensures read_cause { (D.story disk.new).read_faults ≡ (D.story disk.old).read_faults }
{
    let bytes = read_area(alloc, disk, area)?;
    parse(alloc, &bytes)
}

// The bytes of an area.
pub(crate) fn read_area<M: Made, D: Disk<M>>(
    alloc: Global,
    disk: &mut D,
    area: Area,
) -> Result<Vec<u8>, JournalError>
    ensures bytes { IfOk result (λ bytes. (i : Image) → (D.story disk.old).told ≡ Some i → bytes.items ≡ area_of area i) }
    ensures len { IfOk result (λ bytes. length bytes.items ≡ (D.story disk.old).len area) }
    ensures undamaged { IfErr result (λ e. (e ≡ Fault) ⊎ (e ≡ WantOfMemory)) }
    ensures unmoved { Unmoved (D.story disk.old) (D.story disk.new) }
    ensures cause { HasFaultCause (λ e. e ≡ Fault) (D.story disk.old).faults (D.story disk.new).faults result }
    ensures read_cause { (D.story disk.new).read_faults ≡ (D.story disk.old).read_faults }
{
    let mut bytes = vec![in alloc; 0; disk.journal_len(area) as usize]?;
    if disk.journal_read(area, 0, &mut bytes).is_err() {
        return Err(JournalError::Fault);
    }
    Ok(bytes)
}

pub(crate) fn parse(alloc: Global, area: &[u8]) -> Result<JournalRead, JournalError>
    ensures found { Finds area.now result }
    ensures whole { (bodies : List (List ℕ)) (end : ℕ) → IsJournal area.now bodies end → Agrees bodies end result }
    ensures damaged { (at want : ℕ) → IsDamaged area.now at want → AgreesOnDamage area.now at want result }
    ensures short { IfErr result IsShort }
    ensures bytes { IfOk result (λ read. AllByRecursion AreBytes (bodies_of read.bodies)) }
    ensures gate { IfOk result (λ read. 1 < length area.now → read.end < length area.now) }
    ensures none { IfOk result (λ read. length area.now ≤ 1 → read.end ≡ 0) }
    ensures no_fault { IfErr result (λ e. e ≡ Fault → ⊥) }
{
    parse_records(alloc, area)
}

fn parse_records(alloc: Global, area: &[u8]) -> Result<JournalRead, JournalError>
    ensures found { Finds area.now result }
    ensures short { IfErr result IsShort }
    ensures bytes { IfOk result (λ read. AllByRecursion AreBytes (bodies_of read.bodies)) }
    ensures gate { IfOk result (λ read. 1 < length area.now → read.end < length area.now) }
    ensures none { IfOk result (λ read. length area.now ≤ 1 → read.end ≡ 0) }
    ensures no_fault { IfErr result (λ e. e ≡ Fault → ⊥) }
{
    let mut bodies = Items::new(alloc);
    let mut at = 0;
    if area.len() < 2 {
        return Ok(JournalRead { bodies, end: 0 });
    }
    while area[at] == 1 {
        let tail = &area[at + 1..];
        let Some(body) = whole_body(tail) else {
            return Err(damage_at(area, at));
        };
        bodies.push(Body {
            at: at as u64,
            bytes: ByteList::from_bytes(alloc, body)?,
        })?;
        at += body.len() + 5;
    }
    Ok(JournalRead {
        bodies,
        end: at as u64,
    })
}

// The damage of an area whose open gate at a place isn't followed by a whole record.
pub(crate) fn damage_at(area: &[u8], at: usize) -> JournalError
    requires { at < length area.now }
    ensures { result ≡ Damaged at (at + needed_of (drop (at + 1) area.now)) (length area.now) }
{
    JournalError::Damaged {
        at: at as u64,
        want: at as u64 + needed(&area[at + 1..]),
        found: area.len() as u64,
    }
}

// What an open gate needs, counted from itself.
fn needed(tail: &[u8]) -> u64
    ensures wants { result ≡ needed_of tail.now }
    ensures small { result < 2 ^ 33 }
{
    match tail {
        [a, b, c, d, ..] => u32::from_be_bytes([*a, *b, *c, *d]) as u64 + 6,
        _ => 6,
    }
}

// The body behind an open gate, where it and the next gate are whole.
pub(crate) fn whole_body(tail: &[u8]) -> Option<&[u8]>
    ensures body { IfSome result (λ body. (length body.now < 2 ^ 32) × ((rest : List ℕ) × (0 < length rest) × (tail.now ≡ word (length body.now) ++ body.now ++ rest))) }
    ensures bytes { IfSome result (λ body. AreBytes body.now) }
    ensures short { IsNone result → length tail.now + 1 < needed_of tail.now }
{
    let [a, b, c, d, rest @ ..] = tail else {
        return None;
    };
    let len = u32::from_be_bytes([*a, *b, *c, *d]) as usize;
    if len < rest.len() {
        Some(&rest[..len])
    } else {
        None
    }
}
