//! Why an opening stops.
use file_blocks::BlockRefusal;
use pst_base::{Bid, Nid, PageFault};
use pst_header::HeaderRefusal;
use pst_outside::Failed;
use std::alloc::{AllocError, AllocFailed};

/// What is wrong with a page of a tree, in the order in which it is looked for.
#[derive(Clone, Copy, Debug, PartialEq, Eq)]
pub enum PageRefusal {
    /// Its place isn't a multiple of 64, or is below 4400h, or the page ends past the file's end.
    Outside,
    /// Its frame, its entries, or its place in the tree.
    Faulty(PageFault),
}

/// What is wrong with the tree of a node's data, or of its subnodes.
#[derive(Clone, Copy, Debug, PartialEq, Eq)]
pub enum NodeFault {
    /// A subnode stands below level 8.
    Deep,
    /// It has more subnodes than the file has room for.
    Many,
    /// Its data, or that of a subnode, is longer than the file.
    Long,
}

/// Why a file is refused. The bytes never change by it.
#[derive(Clone, Copy, Debug, PartialEq, Eq)]
pub enum OpenRefusal {
    /// The file has no bytes.
    Empty,
    /// The gate's file has more than 580 bytes: so many.
    Gate { len: u64 },
    /// The file has fewer than the 564 bytes of a header: so many.
    Short { len: u64 },
    /// The header that counts isn't one ([MS-PST] 2.2.2.6).
    Header(HeaderRefusal),
    /// The file has fewer bytes than the header says.
    Truncated { len: u64, eof: u64 },
    /// The header names an end past the last region that may be.
    Large { eof: u64 },
    /// The page of a tree that begins at `ib` is at fault.
    Page { ib: u64, fault: PageRefusal },
    /// The block that begins at `ib` is at fault.
    Block { ib: u64, fault: BlockRefusal },
    /// A block that is named isn't in the block tree.
    Missing { bid: Bid },
    /// A block or a page of a tree meets another, or an AMap page: the least start of the later of such two.
    Overlap { ib: u64 },
    /// What a node leads to is at fault.
    Node { nid: Nid, fault: NodeFault },
}

/// Why an opening gives nothing.
#[derive(Clone, Copy, Debug, PartialEq, Eq)]
pub enum OpenStop {
    /// The file is refused.
    Refused(OpenRefusal),
    /// A call on the disk failed.
    Fault,
    /// The page or block at `ib` passed its check and fails it at a later reading, in these two numbers.
    Changed { ib: u64, stored: u64, computed: u64 },
    /// There was no memory.
    Memory,
}

impl From<Failed> for OpenStop {
    ghost use Rattle.std.specs.Prelude.{◌≡◌};
    ghost use Rattle.file_layout.specs.declared.stops.OpenStop.TheVariants.{Fault};

    ghost from_gives = { λ _ e. e ≡ Fault };

    fn from(_: Failed) -> OpenStop {
        OpenStop::Fault
    }
}

impl From<AllocError> for OpenStop {
    ghost use Rattle.std.specs.Prelude.{◌≡◌};
    ghost use Rattle.file_layout.specs.declared.stops.OpenStop.TheVariants.{Memory};

    ghost from_gives = { λ _ e. e ≡ Memory };

    fn from(_: AllocError) -> OpenStop {
        OpenStop::Memory
    }
}

impl<T: Drop> From<AllocFailed<T>> for OpenStop {
    ghost use Rattle.std.specs.Prelude.{◌≡◌};
    ghost use Rattle.file_layout.specs.declared.stops.OpenStop.TheVariants.{Memory};

    ghost from_gives = { λ _ e. e ≡ Memory };

    fn from(_: AllocFailed<T>) -> OpenStop {
        OpenStop::Memory
    }
}
