// What holds of parts and of merged ranges, however they were merged.
ghost use Rattle.mesa_split.specs.Laws.{OneDelta, OneSpelling, PartsFold, PartsRise};

use mesa_disk::{FileReader, Made};

/// Parts at rising cuts make up the whole.
pub fn parts_join()
    ensures rise { PartsRise }
    ensures fold { PartsFold }
{}

/// Files of the same rows are the same but for their ids.
pub fn one_spelling<M: Made>()
    ensures { OneSpelling M.bytes M.id_of }
{}

/// What is merged in parts, at whichever cuts, is byte for byte what is merged whole.
pub fn one_delta<M: Made, R: FileReader>()
    ensures { OneDelta M.bytes M.id_of R.bytes }
{}
