//! Why nodes have no tree.
use mail_objects::MessageFault;
use node_port::KeepStop;
use pst_base::{MemOr, Nid};
use std::alloc::AllocError;

/// How folders and tables don't fit together.
#[derive(Clone, Copy, Debug, PartialEq, Eq)]
pub enum TreeFault {
    /// The store's values, the names, the root, or what a row names isn't there.
    Missing,
    /// A plain folder has no table of folders or no table of messages.
    Table,
    /// What is listed names another parent.
    Parent,
    /// A folder stands more than 64 folders below the root.
    Depth,
    /// The root is listed.
    Cycle,
}

/// What is wrong.
#[derive(Clone, Copy, Debug, PartialEq, Eq)]
pub enum LookRefusal {
    /// A node isn't of its form: what is wrong with its bytes.
    Node { nid: Nid, fault: MessageFault },
    /// Folders and tables don't fit together at this node.
    Tree { nid: Nid, fault: TreeFault },
    /// The values of the node of names (61h) hold none.
    Names,
}

/// Why no tree is found.
#[derive(Clone, Copy, Debug, PartialEq, Eq)]
pub enum LookStop {
    /// There is no tree.
    Refused(LookRefusal),
    /// The disk failed.
    Fault,
    /// What stands at the offset `ib` isn't as it was found before: the two numbers that the check compared.
    Changed { ib: u64, stored: u64, computed: u64 },
    /// There was no memory.
    Memory,
}

impl From<AllocError> for LookStop {
    ghost use Rattle.std.specs.Prelude.{◌≡◌};
    ghost use Rattle.tree_look.specs.declared.stops.LookStop.TheVariants.{Memory};

    ghost from_gives = { λ _ e. e ≡ Memory };

    fn from(_: AllocError) -> LookStop {
        LookStop::Memory
    }
}

impl From<KeepStop> for LookStop {
    ghost use Rattle.std.specs.Prelude.{◌≡◌};
    ghost use Rattle.tree_look.specs.Stops.{stop_of};

    ghost from_gives = { λ stop e. e ≡ stop_of stop };

    fn from(stop: KeepStop) -> LookStop {
        match stop {
            KeepStop::Fault => LookStop::Fault,
            KeepStop::Changed {
                ib,
                stored,
                computed,
            } => LookStop::Changed {
                ib,
                stored,
                computed,
            },
            KeepStop::Memory => LookStop::Memory,
        }
    }
}

impl LookStop {
    ghost use Rattle.std.specs.Prelude.{◌≡◌};
    ghost use Rattle.tree_look.specs.declared.stops.LookRefusal.TheVariants.{Tree};
    ghost use Rattle.tree_look.specs.declared.stops.LookStop.TheVariants.{Refused};
    ghost use Rattle.tree_look.specs.Stops.{formless};

    /// That a node couldn't be read as what it should be.
    pub(crate) fn formless(nid: Nid, why: MemOr<MessageFault>) -> LookStop
        ensures { result ≡ formless nid why }
    {
        match why {
            MemOr::Memory => LookStop::Memory,
            MemOr::Refused(fault) => LookStop::Refused(LookRefusal::Node { nid, fault }),
        }
    }

    /// That folders and tables don't fit together at a node.
    pub(crate) fn unfit(nid: Nid, fault: TreeFault) -> LookStop
        ensures { result ≡ Refused (Tree nid fault) }
    {
        LookStop::Refused(LookRefusal::Tree { nid, fault })
    }
}
