// An index that is kept.
ghost use Rattle.std.specs.Prelude.{◌≡◌, ℕ, List, IsTrue};
ghost use Rattle.sha2.specs.Sha256.{sha256};
ghost use Rattle.mesa_open_files.specs.mesa_delta_format.Indexed.{IsIndexOf};
ghost use Rattle.mesa_open_files.specs.mesa_delta_format.Places.{tail_spelled};
ghost use Rattle.mesa_open_files.specs.mesa_delta_format.Summary.{file_layout};

use crate::same::same_columns;
use mesa_columns::Schema;
use mesa_delta::Index;
use mesa_file::FileRef;
use mesa_key::short;

/// The index of a file, and the SHA-256 of the tail that tells it.
#[derive(Drop)]
pub(crate) struct Kept {
    pub(crate) index: Index,
    digest: [u8; 32],
    ghost told: { sha256 (tail_spelled index.layout index.rows index.entries) ≡ digest },
}

impl Kept {
    /// The index of a tail with this digest.
    pub(crate) fn new(index: Index, digest: &[u8; 32]) -> Kept
        requires { sha256 (tail_spelled index.layout index.rows index.entries) ≡ digest.now }
        ensures { result.index ≡ index }
    {
        Kept {
            index,
            digest: *digest,
        }
    }

    /// Whether it is the index of the file of this reference, whose rows have these columns. Nothing has to be known of what the reference was when the index was kept: all that it tells of the file is compared, but its least key, its count of rows and its aggregates, which an index doesn't have.
    pub(crate) fn is_of(&self, file: &FileRef, schema: &Schema) -> bool
        ensures { IsTrue result → (tail : List ℕ) × IsIndexOf file.now (file_layout schema.now file.now) tail self.now.index × (sha256 tail ≡ file.now.digest) }
    {
        let index = &self.index;
        index.file().number() == file.id.number()
            && index.len() == file.len
            && index.blocks() == file.blocks
            && self.digest == file.digest
            && *index.last() == short(file.last.as_slice())
            && index.format() == file.format
            && same_columns(index.schema(), schema)
    }
}
