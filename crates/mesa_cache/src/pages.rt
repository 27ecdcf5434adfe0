// The pages that are kept.
ghost use Rattle.std.specs.Prelude.{◌≡◌, ◌+◌, ◌≤◌, ℕ, List, take, drop, length, vec_len, Contains, IsTrue, IfSome};
ghost use Rattle.mesa_cache.specs.Pages.{AreAmong, AreOf, AreSized, AreWith};

use lru::LruCache;
use mesa_disk::ByteList;
use std::alloc::Global;

/// Pages by their numbers.
pub type Pages = LruCache<u64, ByteList>;

/// How many bytes a page has. The last page of a file may have fewer.
pub const PAGE_SIZE: u64 = 16_384;

// Copies a part of a page, where it is kept. It is then the page that was used last.
fn copy_kept(pages: &mut Pages, number: u64, offset: usize, piece: &mut [u8]) -> bool
    requires { (page : List ℕ) → Contains pages.old.entries (number, page) → offset + length piece.old ≤ length page }
    ensures found { IsTrue result → (page : List ℕ) × Contains pages.old.entries (number, page) × (piece.new ≡ take (length piece.old) (drop offset page)) }
    ensures among { AreAmong pages.new.entries pages.old.entries }
{
    match pages.get(&number) {
        Some(page) => {
            piece.copy_from_slice(&page.as_slice()[offset..offset + piece.len()]);
            true
        }
        None => false,
    }
}

/// Fills the front of a buffer from the pages of a file that are kept, up to the first one that isn't, and tells how much that is.
pub fn copy_front(pages: &mut Pages, size: u64, at: u64, buf: &mut [u8]) -> usize
    requires within { at + length buf.old ≤ size }
    requires sized { AreSized size pages.old.entries }
    ensures within { result ≤ length buf.old }
    ensures copied { (bytes : List ℕ) → AreOf bytes pages.old.entries → take result buf.new ≡ take result (drop at bytes) }
    ensures among { AreAmong pages.new.entries pages.old.entries }
{
    let mut done = 0;
    'pieces: while done < buf.len() {
        let from = at + done as u64;
        let (number, offset) = (from / PAGE_SIZE, (from % PAGE_SIZE) as usize);
        let end = done + (PAGE_SIZE as usize - offset).min(buf.len() - done);
        if !copy_kept(pages, number, offset, &mut buf[done..end]) {
            return done;
        }
        done = end;
    }
    done
}

/// A buffer of this length for one page more, if there is memory. Where no room is left for a page, it is that of the page that was not used for longest.
pub fn make_page(alloc: Global, pages: &mut Pages, len: usize) -> Option<Vec<u8>>
    ensures len { IfSome result (λ page. vec_len page ≡ len) }
    ensures among { AreAmong pages.new.entries pages.old.entries }
{
    let mut page = take_buffer(alloc, pages);
    match page.resize(len, 0) {
        Ok(()) => Some(page),
        Err(_) => None,
    }
}

// A buffer for one page more.
fn take_buffer(alloc: Global, pages: &mut Pages) -> Vec<u8>
    ensures { AreAmong pages.new.entries pages.old.entries }
{
    if pages.len() < pages.cap().get() {
        return Vec::new(alloc);
    }
    match pages.pop_lru() {
        Some((_, page)) => page.into_vec(),
        None => Vec::new(alloc),
    }
}

/// Copies a part of a page, and keeps the page where there is memory for it.
pub fn copy_and_keep(pages: &mut Pages, number: u64, page: Vec<u8>, offset: usize, piece: &mut [u8])
    requires { offset + length piece.old ≤ vec_len page }
    ensures copied { piece.new ≡ take (length piece.old) (drop offset page.items) }
    ensures with { AreWith number page.items pages.new.entries pages.old.entries }
{
    piece.copy_from_slice(&page[offset..offset + piece.len()]);
    let _kept = pages.put(number, ByteList::from_vec(page));
}
