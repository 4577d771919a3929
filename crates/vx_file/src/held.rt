//! The numbers of the blocks that were read.
ghost use Rattle.std.specs.Prelude.{◌≡◌};

/// The numbers of the touched blocks, one block after another, and for each block of rows where its
/// numbers begin.
#[derive(Drop)]
pub(crate) struct Held {
    pub(crate) numbers: Vec<u64>,
    pub(crate) starts: Vec<usize>,
}
