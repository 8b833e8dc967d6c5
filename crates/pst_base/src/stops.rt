//! Answers that many crates give beside their values.
use std::alloc::{AllocError, AllocFailed};

/// Want of memory, or a refusal with its cause.
#[derive(Clone, Copy, Debug, PartialEq, Eq, Drop)]
pub enum MemOr<E> {
    Memory,
    Refused(E),
}

impl<E> From<AllocError> for MemOr<E> {
    ghost use Rattle.std.specs.Prelude.{◌≡◌};
    ghost use Rattle.pst_base.specs.declared.stops.MemOr.TheVariants.{Memory};

    ghost from_gives = { λ _ e. e ≡ Memory };

    fn from(_: AllocError) -> MemOr<E> {
        MemOr::Memory
    }
}

impl<E, T: Drop> From<AllocFailed<T>> for MemOr<E> {
    ghost use Rattle.std.specs.Prelude.{◌≡◌};
    ghost use Rattle.pst_base.specs.declared.stops.MemOr.TheVariants.{Memory};

    ghost from_gives = { λ _ e. e ≡ Memory };

    fn from(_: AllocFailed<T>) -> MemOr<E> {
        MemOr::Memory
    }
}

/// What is wrong with a page. The first four are of its trailer ([MS-PST] 2.2.2.7.1), with the two numbers that the check compared; the others are of a tree page's entries.
#[derive(Clone, Copy, Debug, PartialEq, Eq)]
pub enum PageFault {
    /// One of the two bytes of the kind isn't the kind that was asked for: `stored` is the first such byte.
    Kind { stored: u64, computed: u64 },
    /// The stored CRC isn't that of the first 496 bytes.
    Crc { stored: u64, computed: u64 },
    /// The stored signature isn't that of the place and the trailer's id.
    Sig { stored: u64, computed: u64 },
    /// The trailer's id isn't the one that was asked for.
    Bid { stored: u64, computed: u64 },
    /// The entry size is wrong, or there are too many entries, or none where some must be.
    Count,
    /// The level isn't the one that the tree wants here.
    Level,
    /// The keys don't ascend strictly, or one lies outside of the page's span.
    Key,
}

/// Why a source of pages or blocks gave none: its device failed, or what it gave earlier has changed.
#[derive(Clone, Copy, Debug, PartialEq, Eq)]
pub enum SourceStop {
    Failed,
    Changed { ib: u64, stored: u64, computed: u64 },
}
