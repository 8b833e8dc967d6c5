//! Why mending stops.
ghost use Rattle.std.specs.Prelude.{◌≡◌};
ghost use Rattle.search_mends.specs.Stops.{of_hindrance, of_refusal};

use command_text::CommandRefusal;
use pst_base::Nid;
use pst_outside::Failed;
use std::alloc::AllocError;
use store_session::mail_draft::Stop;

/// Why mending the searches of a store stopped. The searches before stay mended.
#[derive(Clone, Copy, Debug, PartialEq, Eq, Drop)]
pub enum MendStop {
    /// What would be written for the search of this folder passes a limit.
    Rows(Nid),
    /// The file has fewer free cells of 8,192 bytes than mending the search needs.
    Full { free: u64, need: u64 },
    /// The numbers for blocks or pages are used up.
    Ids,
    /// The disk failed. Of the store nothing more is known until it is opened again.
    Fault,
    /// What stands at the offset `ib` isn't as it was found before: the two numbers that the check compared.
    Changed { ib: u64, stored: u64, computed: u64 },
    /// There was no memory.
    Memory,
}

impl From<AllocError> for MendStop {
    ghost use Rattle.std.specs.Prelude.{◌≡◌};
    ghost use Rattle.search_mends.specs.declared.stop.MendStop.TheVariants.{Memory};

    ghost from_gives = { λ _ e. e ≡ Memory };

    fn from(_: AllocError) -> MendStop {
        MendStop::Memory
    }
}

impl From<Failed> for MendStop {
    ghost use Rattle.std.specs.Prelude.{◌≡◌};
    ghost use Rattle.search_mends.specs.declared.stop.MendStop.TheVariants.{Fault};

    ghost from_gives = { λ _ e. e ≡ Fault };

    fn from(_: Failed) -> MendStop {
        MendStop::Fault
    }
}

/// Why what mending a search comes to can't be told.
pub(crate) fn of_refusal(search: Nid, stop: Stop) -> MendStop
    ensures { result ≡ of_refusal search stop }
{
    match stop {
        Stop::Refused(_) => MendStop::Rows(search),
        Stop::Fault => MendStop::Fault,
        Stop::Changed {
            ib,
            stored,
            computed,
        } => MendStop::Changed {
            ib,
            stored,
            computed,
        },
        Stop::Memory => MendStop::Memory,
    }
}

/// Why what mending a search comes to can't be planned.
pub(crate) fn of_hindrance(search: Nid, stop: Stop) -> MendStop
    ensures { result ≡ of_hindrance search stop }
{
    match stop {
        Stop::Refused(CommandRefusal::Full { free, need }) => MendStop::Full { free, need },
        Stop::Refused(CommandRefusal::Ids) => MendStop::Ids,
        other => of_refusal(search, other),
    }
}
