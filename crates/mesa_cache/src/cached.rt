// A reader whose pages are kept.
ghost use Rattle.std.specs.Prelude.{◌≡◌, ◌≤◌, ◌+◌, ℕ, List, Some, length, take, drop, min, IfOk, IfErr, OnOk};
ghost use Rattle.mesa_disk.specs.mesa_io.Causes.{HasCause, last};

use crate::pages::{PAGE_SIZE, Pages, copy_and_keep, copy_front, make_page};
use lru::LruCache;
use mesa_disk::{FileReader, ReadFailed};
use std::alloc::{AllocError, Global};
use std::marker::Model;
use std::num::NonZeroUsize;

/// A reader that reads a file by pages, and keeps those that were used last.
#[derive(Drop)]
pub struct Cached<R: FileReader> {
    alloc: Global,
    inner: R,
    pages: Pages,
    reads: u64,
}

impl<R: FileReader> Model for Cached<R> {
    ghost use Rattle.mesa_cache.specs.Reading.{Reading};
    ghost use Rattle.mesa_cache.specs.Pages.{ArePages};

    ghost Value = { Reading R };

    ghost view = { λ c. record { inner = c.inner; reads = c.reads } };

    ghost invariant = { λ c. ArePages (R.bytes c.inner) (R.size c.inner) c.pages.entries };
}

impl<R: FileReader> Cached<R> {
    /// A reader of the same file, which keeps so many pages at most. Nothing is read yet.
    pub fn new(alloc: Global, inner: R, pages: usize) -> Result<Self, (AllocError, R)>
        requires { 1 ≤ pages }
        ensures inner { IfOk result (λ c. c.inner ≡ inner) }
        ensures reads { IfOk result (λ c. c.reads ≡ 0) }
        ensures given_back { IfErr result (λ e. e.1 ≡ inner) }
    {
        match LruCache::new(alloc, NonZeroUsize::new(pages).unwrap()) {
            Ok(pages) => Ok(Cached {
                alloc,
                inner,
                pages,
                reads: 0,
            }),
            Err(error) => Err((error, inner)),
        }
    }

    /// The reader itself, without its pages.
    pub fn into_inner(self) -> R
        ensures { result ≡ self.inner }
    {
        self.inner
    }
}

impl<R: FileReader> FileReader for Cached<R> {
    ghost bytes = { λ c. R.bytes c.inner };

    ghost size = { λ c. R.size c.inner };

    ghost faults = { λ c. R.faults c.inner };

    ghost reads = { λ c. c.reads };

    ghost sized = { λ c b is. R.sized c.inner b is };

    fn len(&self) -> u64 {
        self.inner.len()
    }

    /// Reads by the pages that are kept, and from the first one that isn't kept on by one read of the inner reader at most.
    ///
    /// What lies in one page is read with the rest of that page, which is then kept: so a run of short reads reads each
    /// page once. What goes on behind such a page's end, as a file's block mostly does, is read as it is, and no page of
    /// it is kept. By pages a block would take several reads in place of one, and a query reads each block once.
    fn read_at(&mut self, at: u64, buf: &mut [u8]) -> Result<(), ReadFailed>
        requires { at + length buf.old ≤ R.size self.old.inner }
        ensures read { OnOk result ((b : List ℕ) → R.bytes self.old.inner ≡ Some b → buf.new ≡ take (length buf.old) (drop at b)) }
        ensures bytes { R.bytes self.new.inner ≡ R.bytes self.old.inner }
        ensures size { R.size self.new.inner ≡ R.size self.old.inner }
        ensures reads { self.new.reads ≡ min (self.old.reads + 1) last }
        ensures cause { HasCause (R.faults self.old.inner) (R.faults self.new.inner) result }

        // The inner reader is read at most once.
        ensures once { R.reads self.new.inner ≤ R.reads self.old.inner + 1 }
    {
        self.reads = self.reads.saturating_add(1);
        let size = self.inner.len();
        let done = copy_front(&mut self.pages, size, at, buf);
        if done == buf.len() {
            return Ok(());
        }
        let from = at + done as u64;
        let (number, offset) = (from / PAGE_SIZE, (from % PAGE_SIZE) as usize);
        let left = &mut buf[done..];
        if left.len() > PAGE_SIZE as usize - offset {
            return self.inner.read_at(from, left);
        }
        let place = from - offset as u64;
        let len = (size - place).min(PAGE_SIZE) as usize;
        let Some(mut page) = make_page(self.alloc, &mut self.pages, len) else {
            // Without memory for the page it is read past the cache.
            return self.inner.read_at(from, left);
        };
        self.inner.read_at(place, &mut page)?;
        copy_and_keep(&mut self.pages, number, page, offset, left);
        Ok(())
    }
}
