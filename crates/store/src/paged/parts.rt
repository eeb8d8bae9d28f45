/// How far a checkpoint has come.
#[derive(Clone, Copy, Debug, PartialEq, Eq)]
pub enum Part {
    /// Some of its pages are not written yet.
    Going,
    /// The slot of this version is current.
    Done(u64),
}
