// The catalogue that the bodies of a journal's live area make.
ghost use Rattle.std.specs.Prelude.{◌≡◌, ◌<◌, ℕ, List, [], None, Some, Ok, OnOk, IfOk, IfErr, length, option_map};
ghost use Rattle.mesa_disk.specs.declared.area.Area.TheVariants.{One};
ghost use Rattle.mesa_journal.specs.Areas.{number_of};
ghost use Rattle.mesa_journal.specs.Read.{bodies_of, placed_from};
ghost use Rattle.mesa_record.specs.Reading.{record_at};
ghost use Rattle.mesa_store_spec.specs.Catalog.{applied};
ghost use Rattle.mesa_store_spec.specs.Fitting.{with_body};
ghost use Rattle.mesa_store_spec.specs.Journaled.{catalog as catalog_of, first_body, first_by, first_record};
ghost use Rattle.mesa_catalog.specs.Kept.{unreserved};
ghost use Rattle.mesa_recover.specs.Damages.{code_of};
ghost use Rattle.mesa_recover.specs.Misfits.{IsMisfitAt, IsMisfitIn, IsOfRecords, misfit_at, refusal_of};
ghost use Rattle.mesa_recover.specs.Live.{IsRefusedBehind};

use crate::OpenError;
use mesa_catalog::Catalog;
use mesa_disk::{Area, Seen};
use mesa_journal::{Body, number_in};
use mesa_record::{Record, RecordError, decode};
use std::alloc::{AllocError, Global};

/// The catalogue that the records of an area make, which has one if it is area 1. Refuses the first body that isn't a record that fits.
pub(crate) fn read_records(alloc: Global, area: Area, bodies: &[Body]) -> Result<Catalog, OpenError>
    requires { area ≡ One → 0 < length bodies.now }
    ensures made { IfOk result (λ c. catalog_of area (bodies_of bodies.now) ≡ Some c.catalogue) }
    ensures free { IfOk result (λ c. c.reserved ≡ None) }
    ensures misfit { IfErr result (λ e. bodies.now ≡ placed_from 0 (bodies_of bodies.now) → IsMisfitIn area (bodies_of bodies.now) e) }
    ensures kind { IfErr result (IsOfRecords area) }
{
    let Some((first, others)) = bodies.split_first() else {
        return Ok(Catalog::new(alloc));
    };
    let mut catalog = read_first(alloc, area, first)?;
    for body in others {
        read_record(alloc, area, &mut catalog, body)?;
    }
    Ok(catalog)
}

/// The number of an area, by its bodies: that of the checkpoint that is the first, 0 where that is another record or there is none.
pub(crate) fn area_number(bodies: &[Body]) -> u32
    ensures { result ≡ number_of (bodies_of bodies.now) }
{
    match bodies.first() {
        None => 0,
        Some(first) => number_in(first.bytes.as_slice()),
    }
}

// ---- the first body

// The catalogue that the first body makes.
fn read_first(alloc: Global, area: Area, body: &Body) -> Result<Catalog, OpenError>
    ensures made { IfOk result (λ c. first_body area body.now.bytes ≡ Some c.catalogue) }
    ensures free { IfOk result (λ c. c.reserved ≡ None) }
    ensures misfit { IfErr result (IsMisfitAt area [] body.now.at body.now.bytes) }
    ensures kind { IfErr result (IsOfRecords area) }
{
    let record = match decode(alloc, body.bytes.as_slice()) {
        Ok(record) => record,
        Err(error) => return Err(refused(area, body.at, error)),
    };
    let made = first_catalog(alloc, area, record)?;
    made.ok_or(misfit(area, body.at, 0))
}

// The catalogue that a record makes as the first of an area, if it fits there.
fn first_catalog(alloc: Global, area: Area, record: Record) -> Result<Option<Catalog>, AllocError>
    ensures { IfOk result (λ made. made ≡ option_map unreserved (first_record area «record»)) }
{
    match record.into_checkpoint() {
        Ok(checkpoint) => Catalog::restored(alloc, area, checkpoint),
        Err(record) => first_of(alloc, area, record),
    }
}

// A record that is no checkpoint is the first of area 0 alone.
fn first_of(alloc: Global, area: Area, record: Record) -> Result<Option<Catalog>, AllocError>
    ensures { IfOk result (λ made. made ≡ option_map unreserved (first_by area «record» None)) }
{
    match area {
        Area::Zero => {}
        Area::One => return Ok(None),
    }
    let mut catalog = Catalog::new(alloc);
    if !catalog.fits(&record) {
        return Ok(None);
    }
    catalog.reserve(&record)?;
    catalog.apply(record);
    Ok(Some(catalog))
}

// ---- the others

// Takes in the record that a body spells.
fn read_record(
    alloc: Global,
    area: Area,
    catalog: &mut Catalog,
    body: &Body,
) -> Result<(), OpenError>
    ensures made { OnOk result (with_body catalog.old.catalogue body.now.bytes ≡ Some catalog.new.catalogue) }
    ensures free { OnOk result (catalog.new.reserved ≡ None) }
    ensures misfit { IfErr result (IsRefusedBehind area catalog.old.catalogue body.now.at body.now.bytes) }
    ensures kind { IfErr result (IsOfRecords area) }
{
    let record = match decode(alloc, body.bytes.as_slice()) {
        Ok(record) => record,
        Err(error) => return Err(refused(area, body.at, error)),
    };
    make_ready(area, catalog, body, &record)?;
    catalog.apply(record);
    Ok(())
}

// Takes the memory that the record of a body needs, if it fits.
fn make_ready(
    area: Area,
    catalog: &mut Catalog,
    body: &Body,
    record: &Record,
) -> Result<(), OpenError>
    requires { record_at body.now.bytes ≡ Ok «record».now }
    ensures made { OnOk result (with_body catalog.old.catalogue body.now.bytes ≡ Some (applied catalog.old.catalogue «record».now)) }
    ensures same { catalog.new.catalogue ≡ catalog.old.catalogue }
    ensures reserved { OnOk result (catalog.new.reserved ≡ Some «record».now) }
    ensures misfit { IfErr result (IsRefusedBehind area catalog.old.catalogue body.now.at body.now.bytes) }
    ensures kind { IfErr result (IsOfRecords area) }
{
    if !catalog.fits(record) {
        return Err(misfit(area, body.at, 0));
    }
    catalog.reserve(record)?;
    Ok(())
}

// ---- refusals

// Why a body is refused whose gate stands at this place.
fn refused(area: Area, at: u64, error: RecordError) -> OpenError
    ensures { result ≡ refusal_of area at error }
{
    match error {
        RecordError::Truncated { at: place }
        | RecordError::BadKind { at: place }
        | RecordError::BadField { at: place }
        | RecordError::Trailing { at: place } => misfit(area, at, place),
        RecordError::Memory => OpenError::Memory,
    }
}

// A body has this first wrong offset.
pub(crate) fn misfit(area: Area, at: u64, offset: u64) -> OpenError
    ensures { result ≡ misfit_at area at offset }
{
    OpenError::Journal {
        area: code(area),
        at,
        want: Seen::Fits,
        found: Seen::Misfit(offset),
    }
}

// The number by which an area is told.
pub(crate) fn code(area: Area) -> u8
    ensures { result ≡ code_of area }
{
    match area {
        Area::Zero => 0,
        Area::One => 1,
    }
}
