// A disk whose readers come by a meeting when they first read a block.
use crate::devices::{Meeting, Place};
use mesa_disk::{
    Area, Disk, DiskFailed, FileId, FileReader, ListFault, Made, OpenFault, ReadFailed,
};
use std::alloc::Global;

/// Under this session's number a reader comes by: it isn't told whose it is.
pub const READER: u16 = 0;

/// A disk of whose readers the first one that reads a block is held there.
#[derive(Drop)]
pub struct MetDisk<'a, D> {
    disk: D,
    meeting: &'a Meeting,
}

impl<'a, D> MetDisk<'a, D> {
    pub fn new(disk: D, meeting: &'a Meeting) -> MetDisk<'a, D> {
        MetDisk { disk, meeting }
    }

    pub fn into_disk(self) -> D {
        let MetDisk { disk, .. } = self;
        disk
    }
}

impl<'a, M: Made, D: Disk<M>> Disk<M> for MetDisk<'a, D> {
    type Reader = MetReader<'a, D::Reader>;

    ghost story = { λ d. D.story d.disk };

    ghost read_is_left = { λ d i is. D.read_is_left d.disk i is };

    ghost bounded = { λ d a. D.bounded d.disk a };

    ghost clock_bounded = { λ d. D.clock_bounded d.disk };

    ghost lengths = { λ d i a is. D.lengths d.disk i a is };

    ghost counts_now = { λ d t c le now. D.counts_now d.disk t c le now };

    ghost earlier = { λ d s t c le left. D.earlier d.disk s t c le left };

    ghost only_now = { λ d c below left. D.only_now d.disk c below left };

    fn clock(&self) -> u64 {
        self.disk.clock()
    }

    fn journal_len(&self, area: Area) -> u64 {
        self.disk.journal_len(area)
    }

    fn journal_read(&mut self, area: Area, at: u64, buf: &mut [u8]) -> Result<(), DiskFailed> {
        self.disk.journal_read(area, at, buf)
    }

    fn journal_write(&mut self, area: Area, at: u64, bytes: &[u8]) -> Result<(), DiskFailed> {
        self.disk.journal_write(area, at, bytes)
    }

    fn journal_sync(&mut self) -> Result<(), DiskFailed> {
        self.disk.journal_sync()
    }

    fn adopt(&mut self, made: M, id: FileId) -> Result<(), DiskFailed> {
        self.disk.adopt(made, id)
    }

    fn remove(&mut self, id: FileId) -> Result<(), DiskFailed> {
        self.disk.remove(id)
    }

    fn reader(&mut self, id: FileId) -> Result<MetReader<'a, D::Reader>, OpenFault> {
        let reader = self.disk.reader(id)?;
        Ok(MetReader {
            reader,
            meeting: self.meeting,
            has_read: false,
        })
    }

    fn retire(&mut self, reader: MetReader<'a, D::Reader>) {
        let MetReader { reader, .. } = reader;
        self.disk.retire(reader);
    }

    fn file_ids(&mut self) -> Result<Vec<FileId>, ListFault> {
        self.disk.file_ids()
    }
}

/// A reader that comes by a meeting at each read but its first, which is of the file's tail, within a turn.
#[derive(Drop)]
pub struct MetReader<'a, R> {
    reader: R,
    meeting: &'a Meeting,
    has_read: bool,
}

impl<'a, R: FileReader> FileReader for MetReader<'a, R> {
    ghost bytes = { λ r. R.bytes r.reader };

    ghost size = { λ r. R.size r.reader };

    ghost faults = { λ r. R.faults r.reader };

    ghost reads = { λ r. R.reads r.reader };

    ghost sized = { λ r b is. R.sized r.reader b is };

    fn len(&self) -> u64 {
        self.reader.len()
    }

    fn read_at(&mut self, at: u64, buf: &mut [u8]) -> Result<(), ReadFailed> {
        if self.has_read {
            self.meeting.come(READER, Place::Reading);
        }
        self.has_read = true;
        self.reader.read_at(at, buf)
    }
}
