// A disk with the indexes of its files.
ghost use Rattle.std.specs.Prelude.{◌≡◌};

use crate::indexes::Indexes;
use mesa_columns::Schema;
use mesa_delta::Index;
use mesa_disk::{Area, Disk, DiskFailed, ListFault, Made, OpenFault};
use mesa_file::{FileId, FileRef};
use mesa_open_files::DeltaDisk;
use std::alloc::Global;
use std::marker::{Model, PhantomData};

/// A disk that keeps the index of each delta file once it has read its tail, until the file is removed. So a file that is opened again isn't read again.
pub struct IndexedDisk<M: Made, D: Disk<M>> {
    disk: D,
    indexes: Indexes,
    made: PhantomData<M>,
}

impl<M: Made, D: Disk<M>> Model for IndexedDisk<M, D> {
    ghost use Rattle.mesa_index_cache.specs.Kept.{AreTrue};

    ghost Value = { D };

    ghost view = { λ d. d.disk };

    ghost invariant = { λ d. AreTrue (D.story d.disk).told d.indexes };
}

impl<M: Made, D: Disk<M>> IndexedDisk<M, D> {
    /// This disk. No index is kept yet.
    pub fn new(alloc: Global, disk: D) -> Self
        ensures { result ≡ disk }
    {
        IndexedDisk {
            disk,
            indexes: Indexes::new(alloc),
            made: PhantomData,
        }
    }

    /// The disk itself, without the indexes.
    pub fn into_inner(self) -> D
        ensures { result ≡ self }
    {
        let IndexedDisk {
            disk,
            indexes: _,
            made: _,
        } = self;
        disk
    }
}

impl<M: Made, D: Disk<M>> Disk<M> for IndexedDisk<M, D> {
    type Reader = D::Reader;

    ghost story = { λ d. D.story d };

    ghost read_is_left = { λ d i is. D.read_is_left d i is };

    ghost bounded = { λ d a. D.bounded d a };

    ghost clock_bounded = { λ d. D.clock_bounded d };

    ghost lengths = { λ d i a is. D.lengths d i a is };

    ghost counts_now = { λ d t c le now. D.counts_now d t c le now };

    ghost earlier = { λ d s t c le had. D.earlier d s t c le had };

    ghost only_now = { λ d c low had. D.only_now d c low had };

    fn clock(&self) -> u64 {
        self.disk.clock()
    }

    fn journal_len(&self, area: Area) -> u64 {
        self.disk.journal_len(area)
    }

    fn journal_read(&mut self, area: Area, at: u64, buf: &mut [u8]) -> Result<(), DiskFailed> {
        self.disk.journal_read(area, at, buf)
    }

    fn journal_write(&mut self, area: Area, at: u64, bytes: &[u8]) -> Result<(), DiskFailed> {
        self.disk.journal_write(area, at, bytes)
    }

    fn journal_sync(&mut self) -> Result<(), DiskFailed> {
        self.disk.journal_sync()
    }

    fn adopt(&mut self, made: M, id: FileId) -> Result<(), DiskFailed> {
        self.disk.adopt(made, id)
    }

    fn remove(&mut self, id: FileId) -> Result<(), DiskFailed> {
        self.indexes.forget(id);
        self.disk.remove(id)
    }

    fn reader(&mut self, id: FileId) -> Result<D::Reader, OpenFault> {
        self.disk.reader(id)
    }

    fn retire(&mut self, reader: D::Reader) {
        self.disk.retire(reader);
    }

    fn file_ids(&mut self) -> Result<Vec<FileId>, ListFault> {
        self.disk.file_ids()
    }
}

impl<M: Made, D: Disk<M>> DeltaDisk<M> for IndexedDisk<M, D> {
    fn find_index(&self, file: &FileRef, schema: &Schema) -> Option<Index> {
        self.indexes.find(file, schema)
    }

    fn keep_index(&mut self, index: &Index, digest: &[u8; 32]) {
        self.indexes.keep(index, digest);
    }
}
