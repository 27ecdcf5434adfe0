/// One of the two journal areas of a disk.
#[derive(Clone, Copy, Debug, PartialEq, Eq)]
pub enum Area {
    Zero,
    One,
}
