// Versions that are asked for.
ghost use Rattle.std.specs.Prelude.{◌≡◌, ◌≤◌, ◌<◌, ◌-◌, ℕ, None, Some, Ok, Err, IfOk, IfErr, OnOk, length};
ghost use Rattle.mesa_record.specs.declared.record.Record.TheVariants as record_of;
ghost use Rattle.mesa_model.specs.declared.replies.Reply.TheVariants as reply;
ghost use Rattle.mesa_model.specs.Pins.{make_pin, next_token, with_pin};
ghost use Rattle.mesa_model.specs.Versions.{expire_all, expire_table as table_expired, version_asked as version_of, version_checked};
ghost use Rattle.mesa_model.specs.Warehouse.{Warehouse};
ghost use Rattle.mesa_validate.specs.Ruled.{IsRefused, IsRuled};
ghost use Rattle.mesa_validate.specs.Seen.{HasCatalog, greatest_in, number_of};

use crate::Ruled;
use crate::lookups::table_number;
use mesa_binding::Failure;
use mesa_catalog::Catalog;
use mesa_filter::VersionWord;
use mesa_list::TryCopy;
use mesa_model::{Refusal, Reply};
use mesa_record::Record;

/// How many pins all sessions together may hold.
const MAX_PINS: usize = 64;

/// An expiry of the versions below this one.
pub fn expire(catalog: &Catalog, version: u32) -> Result<Ruled, Refusal>
    ensures written { IfOk result (λ r. r.writes ≡ record_of.Expire version) }
    ensures told { IfOk result (λ r. r.tells ≡ reply.Expired None version) }
    ensures ruled { IfOk result (IsRuled catalog.now.catalogue (λ w. expire_all w version)) }
    ensures refused { IfErr result (λ refusal. (w : Warehouse) → HasCatalog catalog.now.catalogue w → expire_all w version ≡ Err refusal) }
{
    check_version(catalog, catalog.floor(), version)?;
    Ok(Ruled {
        writes: Record::Expire { version },
        tells: Reply::Expired {
            table: None,
            oldest: version,
        },
    })
}

/// An expiry of a table's versions below this one.
pub fn expire_table(catalog: &Catalog, name: &[u8], version: u32) -> Result<Ruled, Failure>
    ensures written { IfOk result (λ r. (number : ℕ) × (number_of catalog.now.catalogue name.now ≡ Some number) × (r.writes ≡ record_of.ExpireTable number version)) }
    ensures told { IfOk result (λ r. r.tells ≡ reply.Expired (Some name.now) version) }
    ensures ruled { IfOk result (IsRuled catalog.now.catalogue (λ w. table_expired w name.now version)) }
    ensures refused { IfErr result (IsRefused catalog.now.catalogue (λ w. table_expired w name.now version)) }
{
    let Some(table) = table_number(catalog, name) else {
        return Err(Failure::Refused(Refusal::NoTable { row: None }));
    };
    if let Err(refusal) = check_version(catalog, catalog.oldest(table), version) {
        return Err(Failure::Refused(refusal));
    }
    let name = catalog.name(table).copy()?;
    Ok(Ruled {
        writes: Record::ExpireTable { table, version },
        tells: Reply::Expired {
            table: Some(name),
            oldest: version,
        },
    })
}

/// The version that a pin is asked of, while so many pins are held.
pub fn pin(catalog: &Catalog, asked: VersionWord, pins: usize) -> Result<u32, Refusal>
    ensures pinned { IfOk result (λ version. (w : Warehouse) (session : ℕ) → HasCatalog catalog.now.catalogue w → length w.pins ≡ pins → make_pin w session asked ≡ Ok (with_pin w session version, reply.Pinned (next_token w session) version)) }
    ensures refused { IfErr result (λ refusal. (w : Warehouse) (session : ℕ) → HasCatalog catalog.now.catalogue w → length w.pins ≡ pins → make_pin w session asked ≡ Err refusal) }
{
    let version = version_asked(catalog, common_oldest(catalog), asked)?;
    if pins >= MAX_PINS {
        let limit = MAX_PINS as u32;
        return Err(Refusal::PinsFull { limit });
    }
    Ok(version)
}

// The first version at which all tables can be queried.
fn common_oldest(catalog: &Catalog) -> u32
    ensures { result ≡ greatest_in catalog.now.catalogue.floor catalog.now.catalogue.tables }
{
    let mut found = catalog.floor();
    for table in 0..catalog.tables() {
        found = found.max(catalog.oldest(table));
    }
    found
}

/// The version that is asked for where this one is the oldest, or its refusal. A pin's version is asked of the pin.
pub fn version_asked(catalog: &Catalog, oldest: u32, asked: VersionWord) -> Result<u32, Refusal>
    ensures asked { (w : Warehouse) → HasCatalog catalog.now.catalogue w → result ≡ version_of w oldest asked }
    ensures low { oldest ≤ catalog.now.catalogue.next - 1 → IfOk result (λ version. oldest ≤ version) }
{
    match asked {
        VersionWord::Latest => match catalog.newest() {
            Some(newest) => Ok(newest),
            None => Err(Refusal::Future {
                asked,
                newest: None,
            }),
        },
        VersionWord::At(version) => {
            check_version(catalog, oldest, version)?;
            Ok(version)
        }
        VersionWord::Pin(token) => Err(Refusal::NoPin { token }),
    }
}

// Whether a version can be queried where this one is the oldest.
fn check_version(catalog: &Catalog, oldest: u32, version: u32) -> Result<(), Refusal>
    ensures checked { (w : Warehouse) → HasCatalog catalog.now.catalogue w → result ≡ version_checked w oldest version }
    ensures low { OnOk result (oldest ≤ version) }
    ensures high { OnOk result (version < catalog.now.catalogue.next) }
{
    if version < oldest {
        return Err(Refusal::Stale {
            asked: version,
            oldest,
        });
    }
    let newest = catalog.newest();
    match newest {
        Some(last) if version <= last => Ok(()),
        _ => Err(Refusal::Future {
            asked: VersionWord::At(version),
            newest,
        }),
    }
}
