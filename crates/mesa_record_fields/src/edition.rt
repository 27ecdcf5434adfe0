// Which kinds a record's references to files, and checkpoints, are spelled by.

/// Records of kinds 5, 6 and 8 are of the first edition: their files are of format 1, and each aggregate and total takes eight bytes. Those of kinds 9, 10 and 11 are of the second one, in which a reference begins with the file's format and each aggregate and total takes sixteen bytes. The third and the fourth one differ from it in checkpoints alone: those of kind 13 tell each table's oldest version, which is the floor in kinds 8 and 11, and those of kind 15 its first epoch too, which is 0 in all others. Only the fourth one is written.
#[derive(Clone, Copy, Debug, PartialEq, Eq)]
pub enum Edition {
    First,
    Second,
    Third,
    Fourth,
}
