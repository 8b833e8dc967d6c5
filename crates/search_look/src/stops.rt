//! Why nodes don't have searches.
use mail_objects::MessageFault;
use node_port::KeepStop;
use pst_base::{MemOr, Nid};
use std::alloc::AllocError;

/// What is wrong with a search of the store's own.
#[derive(Clone, Copy, Debug, PartialEq, Eq)]
pub enum SearchRefusal {
    /// The node of its list isn't a table: what is wrong with its bytes.
    Node { nid: Nid, fault: MessageFault },
    /// Its criteria object says no criteria.
    Criteria { nid: Nid },
    /// It runs, and its list isn't what filtering all messages lists. A look at searches doesn't tell that: it leaves lists as they are.
    Stale { folder: Nid },
}

/// Why no searches are found.
#[derive(Clone, Copy, Debug, PartialEq, Eq)]
pub enum SearchStop {
    /// There are none.
    Refused(SearchRefusal),
    /// The nodes couldn't be read.
    Kept(KeepStop),
}

impl From<AllocError> for SearchStop {
    ghost use Rattle.std.specs.Prelude.{◌≡◌};
    ghost use Rattle.node_port.specs.declared.keeper.KeepStop.TheVariants.{Memory};
    ghost use Rattle.search_look.specs.declared.stops.SearchStop.TheVariants.{Kept};

    ghost from_gives = { λ _ e. e ≡ Kept Memory };

    fn from(_: AllocError) -> SearchStop {
        SearchStop::Kept(KeepStop::Memory)
    }
}

impl From<KeepStop> for SearchStop {
    ghost use Rattle.std.specs.Prelude.{◌≡◌};
    ghost use Rattle.search_look.specs.declared.stops.SearchStop.TheVariants.{Kept};

    ghost from_gives = { λ stop e. e ≡ Kept stop };

    fn from(stop: KeepStop) -> SearchStop {
        SearchStop::Kept(stop)
    }
}

impl SearchStop {
    ghost use Rattle.std.specs.Prelude.{◌≡◌};
    ghost use Rattle.search_look.specs.Looking.{formless};

    /// That the node of a list couldn't be read as a table.
    pub(crate) fn formless(nid: Nid, why: MemOr<MessageFault>) -> SearchStop
        ensures { result ≡ formless nid why }
    {
        match why {
            MemOr::Memory => SearchStop::Kept(KeepStop::Memory),
            MemOr::Refused(fault) => SearchStop::Refused(SearchRefusal::Node { nid, fault }),
        }
    }
}
