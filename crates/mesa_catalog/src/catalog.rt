// The catalogue.
ghost use Rattle.std.specs.Prelude.{◌≡◌, ◌+◌, None, Some, OnOk, OnErr, IsTrue, IfOk};
ghost use Rattle.mesa_span.specs.Ranges.{base_before};
ghost use Rattle.mesa_catalog_records.specs.mesa_store_spec.Catalog.{applied, empty_catalog};
ghost use Rattle.mesa_catalog_records.specs.mesa_store_spec.Fitting.{brings_new_files, fits as fits_catalog, kind_fits};
ghost use Rattle.mesa_catalog.specs.Lookups.{generation_of, turns_generation};

use mesa_catalog_records::{
    CatalogTables, NoRows, Ready, Record, brings_new, brings_rising, greatest_with, make_room,
    share_tables,
};
use std::alloc::{AllocError, Global};
use std::marker::Model;

/// The catalogue: the tables with their deltas and oldest versions, the floor, how many versions there are, and the last run. A version that brought a table nothing costs nothing.
pub struct Catalog {
    pub(crate) catalog_tables: CatalogTables,
    pub(crate) ready: Option<Ready>,
    // No file that is named has a greater id.
    pub(crate) greatest: u64,
    // What is lent for a version that brought a table nothing.
    pub(crate) no_rows: NoRows,
}

impl Model for Catalog {
    ghost use Rattle.mesa_catalog.specs.Kept.{IsKept, Reserved, reserved_of};

    ghost Value = { Reserved };

    ghost view = { λ c. reserved_of c.catalog_tables c.ready };

    ghost invariant = { λ c. IsKept c.catalog_tables c.ready c.greatest };
}

// Each exit calls this, in place of letting go of each part itself.
impl Drop for Catalog {
    fn drop(self) {
        let Catalog {
            catalog_tables: _,
            ready: _,
            greatest: _,
            no_rows: _,
        } = self;
    }
}

impl Catalog {
    /// The catalogue before any record.
    pub fn new(alloc: Global) -> Catalog
        ensures { result ≡ record { catalogue = empty_catalog; reserved = None } }
    {
        Catalog {
            catalog_tables: CatalogTables {
                tables: Vec::new(alloc),
                floor: 0,
                next: 0,
                run: 0,
            },
            ready: None,
            greatest: 0,
            no_rows: NoRows::new(),
        }
    }

    /// The same catalogue, for which nothing is reserved. It shares its deltas with this one: it is a list of pointers to them.
    pub fn copy(&self, alloc: Global) -> Result<Catalog, AllocError>
        ensures { IfOk result (λ copy. copy ≡ record { catalogue = self.now.catalogue; reserved = None }) }
    {
        let tables = share_tables(alloc, &self.catalog_tables.tables)?;
        let copy = Catalog {
            catalog_tables: CatalogTables {
                tables,
                floor: self.catalog_tables.floor,
                next: self.catalog_tables.next,
                run: self.catalog_tables.run,
            },
            ready: None,
            greatest: self.greatest,
            no_rows: NoRows::new(),
        };
        Ok(copy)
    }

    /// The floor: the oldest version of a table that is made now.
    pub fn floor(&self) -> u32
        ensures { result ≡ self.now.catalogue.floor }
    {
        self.catalog_tables.floor
    }

    /// The newest version.
    pub fn newest(&self) -> Option<u32>
        ensures { result ≡ base_before self.now.catalogue.next }
    {
        self.catalog_tables.next.checked_sub(1)
    }

    /// The number of the last run, 0 before the first.
    pub fn run(&self) -> u32
        ensures { result ≡ self.now.catalogue.run }
    {
        self.catalog_tables.run
    }
}

impl Catalog {
    /// Whether a record keeps the rules of its kind: it fits where its files are new too. Takes no memory.
    pub fn allows(&self, r: &Record) -> bool
        ensures { result ≡ kind_fits self.now.catalogue r.now }
    {
        self.catalog_tables.allows(r)
    }

    /// Whether a record fits: it keeps the rules of its kind, and its files are new. Takes no memory. What a run adopts has rising ids, so that the test costs what the record brings; only other ids are looked for among all that are named.
    pub fn fits(&self, r: &Record) -> bool
        ensures { result ≡ fits_catalog self.now.catalogue r.now }
    {
        self.allows(r) && self.brings_new_files(r)
    }

    // Whether the files that a record brings are new.
    fn brings_new_files(&self, r: &Record) -> bool
        ensures { result ≡ brings_new_files self.now.catalogue r.now }
    {
        if brings_rising(self.catalog_tables.run, self.greatest, r) {
            return true;
        }
        brings_new(&self.catalog_tables, r)
    }

    /// Takes all memory that it takes to take in a record. Another record that was reserved for is forgotten.
    pub fn reserve(&mut self, r: &Record) -> Result<(), AllocError>
        requires { IsTrue (fits_catalog self.old.catalogue r.now) }
        ensures same { self.new.catalogue ≡ self.old.catalogue }
        ensures reserved { OnOk result (self.new.reserved ≡ Some r.now) }
        ensures err { OnErr result (self.new ≡ self.old) }
    {
        make_room(&mut self.catalog_tables)?;
        let ready = self.catalog_tables.make_ready(r)?;
        self.ready = Some(ready);
        Ok(())
    }

    /// Takes a record in. Takes no memory.
    pub fn apply(&mut self, r: Record)
        requires { self.old.reserved ≡ Some r }
        ensures applied { self.new.catalogue ≡ applied self.old.catalogue r }
        ensures spent { self.new.reserved ≡ None }
        ensures generation { generation_of self.new.catalogue ≡ generation_of self.old.catalogue + turns_generation r }
    {
        if let Some(ready) = self.ready.take() {
            self.greatest = greatest_with(self.greatest, &r);
            self.catalog_tables.take_in(ready);
        }
    }
}
