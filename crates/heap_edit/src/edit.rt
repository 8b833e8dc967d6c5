//! Edits of data.
use pst_base::Bytes;

/// Blocks that are put at their positions, and how many blocks there are then. Contracts see the blocks after it (`edited`).
#[derive(Debug, Drop)]
pub struct DataEdit {
    pub puts: Vec<(usize, Bytes)>,
    pub len: usize,
}
