//! Why no copy is made.
ghost use Rattle.std.specs.Prelude.{◌≡◌};

use pst_outside::Failed;
use std::alloc::{AllocError, AllocFailed};

/// Why no copy was made.
#[derive(Clone, Copy, Debug, PartialEq, Eq)]
pub enum CompactStop {
    /// The disk failed.
    Fault,
    /// Something in the file isn't as it was found: where it begins, and the two numbers that its check compared.
    Changed { ib: u64, stored: u64, computed: u64 },
    /// The copy would end there, past the most regions that a file may have.
    Large { eof: u64 },
    /// There is too little memory.
    Memory,
}

impl From<Failed> for CompactStop {
    ghost use Rattle.std.specs.Prelude.{◌≡◌};
    ghost use Rattle.copy_pieces.specs.declared.stops.CompactStop.TheVariants.{Fault};

    ghost from_gives = { λ _ e. e ≡ Fault };

    fn from(_failed: Failed) -> CompactStop {
        CompactStop::Fault
    }
}

impl From<AllocError> for CompactStop {
    ghost use Rattle.std.specs.Prelude.{◌≡◌};
    ghost use Rattle.copy_pieces.specs.declared.stops.CompactStop.TheVariants.{Memory};

    ghost from_gives = { λ _ e. e ≡ Memory };

    fn from(_err: AllocError) -> CompactStop {
        CompactStop::Memory
    }
}

impl<T: Drop> From<AllocFailed<T>> for CompactStop {
    ghost use Rattle.std.specs.Prelude.{◌≡◌};
    ghost use Rattle.copy_pieces.specs.declared.stops.CompactStop.TheVariants.{Memory};

    ghost from_gives = { λ _ e. e ≡ Memory };

    fn from(_: AllocFailed<T>) -> CompactStop {
        CompactStop::Memory
    }
}

/// The stop where something isn't as it was found.
pub fn changed(ib: u64) -> CompactStop
    ensures { result ≡ CompactStop.Changed ib 0 0 }
{
    CompactStop::Changed {
        ib,
        stored: 0,
        computed: 0,
    }
}
