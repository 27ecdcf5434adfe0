// The indexes that are kept.
ghost use Rattle.std.specs.Prelude.{◌≡◌, ℕ, List, None, Some, IfSome};
ghost use Rattle.sha2.specs.Sha256.{sha256};
ghost use Rattle.mesa_open_files.specs.mesa_delta_format.Indexed.{IsIndexOf};
ghost use Rattle.mesa_open_files.specs.mesa_delta_format.Places.{tail_spelled};
ghost use Rattle.mesa_open_files.specs.mesa_delta_format.Summary.{file_layout};
ghost use Rattle.mesa_index_cache.specs.Kept.{AreWith, AreWithout, index_kept};

use crate::kept::Kept;
use mesa_columns::Schema;
use mesa_delta::Index;
use mesa_file::{FileId, FileRef};
use std::alloc::Global;
use std::collections::BTreeMap;

/// Indexes by the numbers of their files' ids.
#[derive(Drop)]
pub(crate) struct Indexes {
    by_file: BTreeMap<u64, Kept>,
}

impl Indexes {
    /// None are kept yet. It takes no memory.
    pub(crate) fn new(alloc: Global) -> Indexes
        ensures { (id : ℕ) → index_kept id result ≡ None }
    {
        Indexes {
            by_file: BTreeMap::new(alloc),
        }
    }

    /// The index of the file of this reference, whose rows have these columns, if it is kept and can be shared.
    pub(crate) fn find(&self, file: &FileRef, schema: &Schema) -> Option<Index>
        ensures kept { IfSome result (λ x. index_kept file.now.id self.now ≡ Some x) }
        ensures index { IfSome result (λ x. (tail : List ℕ) × IsIndexOf file.now (file_layout schema.now file.now) tail x × (sha256 tail ≡ file.now.digest)) }
    {
        let kept = self.by_file.get(&file.id.number())?;
        if !kept.is_of(file, schema) {
            return None;
        }
        match kept.index.share() {
            Ok(index) => Some(index),
            Err(_) => None,
        }
    }

    /// Keeps an index of a tail with this digest in place of the one of its file. Where memory is wanting, nothing changes.
    pub(crate) fn keep(&mut self, index: &Index, digest: &[u8; 32])
        requires { sha256 (tail_spelled index.now.layout index.now.rows index.now.entries) ≡ digest.now }
        ensures { AreWith index.now.file index.now self.new self.old }
    {
        let number = index.file().number();
        if let Ok(index) = index.share() {
            let _before = self.by_file.insert(number, Kept::new(index, digest));
        }
    }

    /// Forgets the index of a file.
    pub(crate) fn forget(&mut self, id: FileId)
        ensures { AreWithout id self.new self.old }
    {
        let _kept = self.by_file.remove(&id.number());
    }
}
