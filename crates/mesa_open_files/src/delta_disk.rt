// A disk that may keep what it knows of its files.
ghost use Rattle.std.specs.Prelude.{◌≡◌, ℕ, List, IfSome};
ghost use Rattle.sha2.specs.Sha256.{sha256};
ghost use Rattle.mesa_disk.specs.Story.{Unmoved};
ghost use Rattle.mesa_scan.specs.mesa_delta_format.Indexed.{IsIndexOf};
ghost use Rattle.mesa_scan.specs.mesa_delta_format.Places.{tail_spelled};
ghost use Rattle.mesa_scan.specs.mesa_delta_format.Summary.{file_layout};
ghost use Rattle.mesa_open_files.specs.Opening.{IsTrueOf};

use mesa_delta::Index;
use mesa_disk::{Disk, Made};
use mesa_file::FileRef;
use mesa_schema::Schema;

/// A disk on which delta files are opened. It may keep the index of a file whose tail was read, so that it needn't be read again.
pub trait DeltaDisk<M: Made>: Disk<M> {
    /// The index of the file of this reference, whose rows have these columns, if it is kept.
    fn find_index(&self, file: &FileRef, schema: &Schema) -> Option<Index>
        ensures index { IfSome result (λ x. (tail : List ℕ) × IsIndexOf file.now (file_layout schema.now file.now) tail x × (sha256 tail ≡ file.now.digest)) }
        ensures true_of { IfSome result (λ x. IsTrueOf (Self.story self.now).told file.now.id x) };

    /// Keeps the index that a tail of this digest tells, where there is memory for that. It is no call of the disk.
    fn keep_index(&mut self, index: &Index, digest: &[u8; 32])
        requires told { IsTrueOf (Self.story self.old).told index.now.file index.now }
        requires digest { sha256 (tail_spelled index.now.layout index.now.rows index.now.entries) ≡ digest.now }
        ensures unmoved { Unmoved (Self.story self.old) (Self.story self.new) }
        ensures cause { (Self.story self.new).faults ≡ (Self.story self.old).faults }
        ensures read_cause { (Self.story self.new).read_faults ≡ (Self.story self.old).read_faults };
}
