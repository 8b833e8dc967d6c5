//! Why blocks give nothing.

/// The block at this position is neither known nor put.
#[derive(Clone, Copy, Debug, PartialEq, Eq, Drop)]
pub struct Lacks {
    pub position: usize,
}

/// Why a heap of which some blocks are known gives nothing.
#[derive(Clone, Copy, Debug, PartialEq, Eq, Drop)]
pub enum HeapStop {
    /// The block at this position isn't known. Make it known, and ask again.
    Lacks(usize),
    /// A block isn't one of a heap.
    NoHeap,
    /// There is no room.
    Full,
}
