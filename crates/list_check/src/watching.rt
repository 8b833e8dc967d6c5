//! The running searches, with what they list.
ghost use Rattle.std.specs.Prelude.{◌≡◌};
ghost use Rattle.mail_searches.specs.Searches.{is_found, search_id};
ghost use Rattle.list_check.specs.Watching.{bits_of, differs, stale_of, stray_of, watch_of, watches_of};

use crate::rows::RowIds;
use mail_searches::OwnSearch;
use mail_tree::{Flags, Places};
use mapi_values::Message;
use pst_base::{Ledger, Nid, Steps};
use restr_eval::eval;

/// A running search, and the ids of the rows of its list.
#[derive(Debug, Drop)]
pub(crate) struct Watched<'a> {
    pub(crate) search: &'a OwnSearch,
    pub(crate) rows: RowIds,
}

impl<'a> Watched<'a> {
    /// The search's id.
    fn id(&self) -> Nid
        ensures { result.bits ≡ search_id (watch_of self.now).0 }
    {
        let search = self.search;
        search.nid
    }

    /// Whether the search finds a message. Its restriction is asked only where it looks in the message's folder.
    fn finds<L: Ledger>(&self, places: &Places, message: &Message, steps: &mut Steps<L>) -> bool
        ensures { result ≡ is_found places.now (watch_of self.now).0 message.now }
    {
        let search = self.search;
        search.looks_in(places, message.folder) && eval(&search.restriction, message, steps)
    }

    /// Whether the search lists the message with this id and doesn't find it, or finds it and doesn't list it. Takes no memory.
    fn differs<L: Ledger>(
        &self,
        places: &Places,
        id: Nid,
        message: &Message,
        steps: &mut Steps<L>,
    ) -> bool
        ensures { result ≡ differs places.now (watch_of self.now) id.bits message.now }
    {
        let finds = self.finds(places, message, steps);
        if self.rows.contains(id) {
            !finds
        } else {
            finds
        }
    }
}

/// The first of these searches whose list has a row that names no message: one of which nothing is known. Takes no memory.
pub(crate) fn stray_of(flags: &Flags, watched: &[Watched<'_>]) -> Option<Nid>
    ensures { bits_of result ≡ stray_of flags.now (watches_of watched.now) }
{
    for one in watched {
        if !one.rows.are_known(flags) {
            return Some(one.id());
        }
    }
    None
}

/// The first of these searches that differs on a message. Takes no memory.
pub(crate) fn stale_of<L: Ledger>(
    places: &Places,
    watched: &[Watched<'_>],
    id: Nid,
    message: &Message,
    steps: &mut Steps<L>,
) -> Option<Nid>
    ensures { bits_of result ≡ stale_of places.now (watches_of watched.now) id.bits message.now }
{
    for one in watched {
        if one.differs(places, id, message, steps) {
            return Some(one.id());
        }
    }
    None
}
