//! Why blocks and subnodes aren't a table.

/// The first that is wrong with a table.
#[derive(Clone, Copy, Debug, PartialEq, Eq)]
pub enum TcFault {
    /// The blocks are no heap of a table.
    Heap,
    /// What the header names as the row index isn't one.
    Bth,
    /// Anything else.
    Tc,
}
