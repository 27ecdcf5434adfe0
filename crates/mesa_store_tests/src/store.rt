// A store that is opened, and written record by record.
use crate::adopting::write_turn;
use crate::spelled::Step;
use mesa_catalog::{Begun, Catalog};
use mesa_disk::{FileId, MemDisk};
use mesa_record::decode;
use mesa_recover::{OpenError, begin, read};
use std::alloc::Global;
use std::process::Abort;

/// A store on a disk in memory, on which a run has begun.
pub type Store = Begun<MemDisk>;

/// The store that a disk holds, on which a run is begun; or why not, and the disk.
pub fn open(alloc: Global, disk: MemDisk) -> Result<Store, (OpenError, MemDisk)> {
    match read(alloc, disk) {
        Ok(opened) => begin(alloc, opened),
        Err(refused) => Err(refused),
    }
}

/// Takes in the record that a body spells.
pub fn take_in(rt: &impl Abort, alloc: Global, catalog: &mut Catalog, body: &[u8]) {
    let Ok(record) = decode(alloc, body) else {
        panic!(rt; "no record: {body:?}");
    };
    assert!(rt; catalog.fits(&record));
    let Ok(()) = catalog.reserve(&record) else {
        panic!(rt; "no memory");
    };
    catalog.apply(record);
}

// The files that the record lets go that a body spells.
fn dropped_by(rt: &impl Abort, alloc: Global, catalog: &Catalog, body: &[u8]) -> Vec<FileId> {
    let Ok(record) = decode(alloc, body) else {
        panic!(rt; "no record: {body:?}");
    };
    assert!(rt; catalog.fits(&record));
    catalog.dropped(&record, alloc).expect(rt, "dropped ids")
}

/// Writes a record with its files, and takes it in.
pub fn write(rt: &impl Abort, alloc: Global, store: &mut Store, step: &Step) {
    let body = hex::decode(alloc, step.body).expect(rt, "digits");
    let dropped = dropped_by(rt, alloc, &store.catalog, &body);
    store.end = write_turn(
        rt,
        alloc,
        &mut store.disk,
        store.area,
        store.end,
        &body,
        step.files,
        &dropped,
    );
    take_in(rt, alloc, &mut store.catalog, &body);
}
