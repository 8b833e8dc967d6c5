//! What is wrong with a node.

/// Why a node isn't a message.
#[derive(Clone, Copy, Debug, PartialEq, Eq)]
pub enum MessageFault {
    /// Blocks that should be a heap are none.
    Heap,
    /// A BTree in a heap isn't in order.
    Bth,
    /// A property has no value, or not one of a length that its kind may have.
    Pc,
    /// Something else is wrong with a table.
    Tc,
    /// A row of the table of attachments names no subnode.
    Attach,
}
