//! Why a command stops.
use command_text::CommandRefusal;
use node_port::{KeepStop, PrepareStop};
use std::alloc::{AllocError, AllocFailed};

/// Why a command has no reply of its own. It has then changed nothing.
#[derive(Clone, Copy, Debug, PartialEq, Eq, Drop)]
pub enum Stop {
    /// The command is refused.
    Refused(CommandRefusal),
    /// The disk failed.
    Fault,
    /// What stands at the offset `ib` isn't as it was found before: the two numbers that the check compared.
    Changed { ib: u64, stored: u64, computed: u64 },
    /// There was no memory.
    Memory,
}

impl Stop {
    ghost use Rattle.std.specs.Prelude.{◌≡◌};
    ghost use Rattle.mail_draft.specs.declared.stop.Stop.TheVariants.{Changed};

    /// Something in a node isn't of its form, which was so when the file was opened: the refusal of a node, 13, in place of none.
    pub fn formless() -> Stop
        ensures { result ≡ Changed 0 13 0 }
    {
        Stop::Changed {
            ib: 0,
            stored: 13,
            computed: 0,
        }
    }
}

impl From<AllocError> for Stop {
    ghost use Rattle.std.specs.Prelude.{◌≡◌};
    ghost use Rattle.mail_draft.specs.declared.stop.Stop.TheVariants.{Memory};

    ghost from_gives = { λ _ e. e ≡ Memory };

    fn from(_: AllocError) -> Stop {
        Stop::Memory
    }
}

impl<T: Drop> From<AllocFailed<T>> for Stop {
    ghost use Rattle.std.specs.Prelude.{◌≡◌};
    ghost use Rattle.mail_draft.specs.declared.stop.Stop.TheVariants.{Memory};

    ghost from_gives = { λ _ e. e ≡ Memory };

    fn from(_: AllocFailed<T>) -> Stop {
        Stop::Memory
    }
}

impl From<CommandRefusal> for Stop {
    ghost use Rattle.std.specs.Prelude.{◌≡◌};
    ghost use Rattle.mail_draft.specs.declared.stop.Stop.TheVariants.{Refused};

    ghost from_gives = { λ refusal e. e ≡ Refused refusal };

    fn from(refusal: CommandRefusal) -> Stop {
        Stop::Refused(refusal)
    }
}

impl From<KeepStop> for Stop {
    ghost use Rattle.std.specs.Prelude.{◌≡◌};
    ghost use Rattle.mail_draft.specs.Kept.{stop_of};

    ghost from_gives = { λ stop e. e ≡ stop_of stop };

    fn from(stop: KeepStop) -> Stop {
        match stop {
            KeepStop::Fault => Stop::Fault,
            KeepStop::Changed {
                ib,
                stored,
                computed,
            } => Stop::Changed {
                ib,
                stored,
                computed,
            },
            KeepStop::Memory => Stop::Memory,
        }
    }
}

impl From<PrepareStop> for Stop {
    ghost use Rattle.std.specs.Prelude.{◌≡◌};
    ghost use Rattle.mail_draft.specs.Kept.{plan_stop_of};

    ghost from_gives = { λ stop e. e ≡ plan_stop_of stop };

    fn from(stop: PrepareStop) -> Stop {
        match stop {
            PrepareStop::Fault => Stop::Fault,
            PrepareStop::Changed {
                ib,
                stored,
                computed,
            } => Stop::Changed {
                ib,
                stored,
                computed,
            },
            PrepareStop::Memory => Stop::Memory,
            PrepareStop::Full { free, need } => Stop::Refused(CommandRefusal::Full { free, need }),
            PrepareStop::IdsSpent => Stop::Refused(CommandRefusal::Ids),
        }
    }
}
