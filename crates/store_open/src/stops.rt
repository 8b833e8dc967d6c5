//! Why nodes are no store.
use node_port::KeepStop;
use search_look::{SearchRefusal, SearchStop};
use tree_look::mail_draft::Stop;
use tree_look::{LookRefusal, LookStop};

/// Why nodes are no store.
#[derive(Clone, Copy, Debug, PartialEq, Eq)]
pub enum TreeRefusal {
    /// By its folders, tables and messages.
    Folders(LookRefusal),
    /// By its searches.
    Searches(SearchRefusal),
}

/// Why an opening of nodes gives nothing.
#[derive(Clone, Copy, Debug, PartialEq, Eq)]
pub enum TreeStop {
    /// They are no store.
    Refused(TreeRefusal),
    /// They couldn't be read.
    Kept(KeepStop),
}

impl From<LookStop> for TreeStop {
    ghost use Rattle.std.specs.Prelude.{◌≡◌};
    ghost use Rattle.store_open.specs.Stops.{of_look};

    ghost from_gives = { λ stop e. e ≡ of_look stop };

    fn from(stop: LookStop) -> TreeStop {
        match stop {
            LookStop::Refused(refusal) => TreeStop::Refused(TreeRefusal::Folders(refusal)),
            LookStop::Fault => TreeStop::Kept(KeepStop::Fault),
            LookStop::Changed {
                ib,
                stored,
                computed,
            } => TreeStop::Kept(KeepStop::Changed {
                ib,
                stored,
                computed,
            }),
            LookStop::Memory => TreeStop::Kept(KeepStop::Memory),
        }
    }
}

impl From<SearchStop> for TreeStop {
    ghost use Rattle.std.specs.Prelude.{◌≡◌};
    ghost use Rattle.store_open.specs.Stops.{of_searches};

    ghost from_gives = { λ stop e. e ≡ of_searches stop };

    fn from(stop: SearchStop) -> TreeStop {
        match stop {
            SearchStop::Refused(refusal) => TreeStop::Refused(TreeRefusal::Searches(refusal)),
            SearchStop::Kept(stop) => TreeStop::Kept(stop),
        }
    }
}

impl From<Stop> for TreeStop {
    ghost use Rattle.std.specs.Prelude.{◌≡◌};
    ghost use Rattle.store_open.specs.Stops.{of_check};

    ghost from_gives = { λ stop e. e ≡ of_check stop };

    fn from(stop: Stop) -> TreeStop {
        match stop {
            Stop::Fault => TreeStop::Kept(KeepStop::Fault),
            Stop::Changed {
                ib,
                stored,
                computed,
            } => TreeStop::Kept(KeepStop::Changed {
                ib,
                stored,
                computed,
            }),
            // A check refuses nothing.
            Stop::Refused(_) | Stop::Memory => TreeStop::Kept(KeepStop::Memory),
        }
    }
}
