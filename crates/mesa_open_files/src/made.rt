// Finished files that are not adopted yet.
use mesa_file::FileRef;

/// A finished file with its reference, whose id is the draft's until the file is adopted.
#[derive(Drop)]
pub struct MadeFile<M> {
    pub made: M,
    pub file: FileRef,
}

/// A finished file of the view of a number.
#[derive(Drop)]
pub struct MadeView<M> {
    pub view: u8,
    pub file: MadeFile<M>,
}

/// The finished files of some of a table's rows: the table's own, and its views' by their numbers.
#[derive(Drop)]
pub struct MadeFiles<M> {
    pub file: MadeFile<M>,
    pub views: Vec<MadeView<M>>,
}
