//! The searches of a store, and what becomes of a message in their lists.
ghost use Rattle.std.specs.Prelude.{◌≡◌, ◌≤◌, ◌+◌, [], length, IfOk, OnErr, OnOk, option_copied};
ghost use Rattle.mapi_values.specs.Keyed.{drop_key, put_key};
ghost use Rattle.mail_searches.specs.Asking.{delta_in, looked_at, places_around, steps_in, work_in};
ghost use Rattle.mail_searches.specs.Searches.{in_scope, runs, search_of};

use crate::scoping::is_reached;
use live_search::{Delta, touch};
use mail_tree::Places;
use mapi_values::{Keyed, Message, drop_keyed, put_keyed};
use pst_base::{Ledger, Nid, Steps};
use restr_codec::Restriction;
use search_obj::{CriteriaSet, SearchState};
use std::alloc::{AllocError, Global};
use std::marker::Model;

/// A search with criteria: its folder, what it does as messages change, whether it looks also in folders below those that it is given, those, and what it asks of a message. Contracts see a `Search`.
#[derive(Debug, Drop)]
pub struct OwnSearch {
    pub nid: Nid,
    pub state: SearchState,
    pub recursive: bool,
    pub scope: Vec<Nid>,
    pub restriction: Restriction,
}

impl Model for OwnSearch {
    ghost use Rattle.std.specs.Prelude.{map};
    ghost use Rattle.mail_searches.specs.Searches.{Search};

    ghost Value = { Search };

    ghost use Rattle.std.specs.Coded.{codes};
    ghost use Rattle.restr_codec.specs.contracts.restriction.Restriction as stored;

    ghost coded = { Prim.hlevel (codes, stored.the_row.coded) };

    ghost view = { λ s. record { nid = s.nid.bits; state = s.state; recursive = s.recursive; scope = map (λ n. n.bits) s.scope.items; restriction = s.restriction } };
}

impl Keyed for OwnSearch {
    ghost key_of = { λ s. s.nid };

    fn key(&self) -> u32 {
        self.nid.bits
    }
}

impl OwnSearch {
    /// The search whose folder is this one, with these criteria. Takes no memory.
    pub fn new(nid: Nid, criteria: CriteriaSet) -> OwnSearch
        ensures { result ≡ search_of nid.bits criteria }
    {
        OwnSearch {
            nid,
            state: criteria.flags.state(),
            recursive: criteria.flags.recursive,
            scope: criteria.scope,
            restriction: criteria.restriction,
        }
    }

    /// A copy.
    pub fn copy(&self, alloc: Global) -> Result<OwnSearch, AllocError>
        ensures { IfOk result (λ s. s ≡ self.now) }
    {
        Ok(OwnSearch {
            nid: self.nid,
            state: self.state,
            recursive: self.recursive,
            scope: Vec::from_slice(alloc, self.scope.as_slice())?,
            restriction: self.restriction.copy(alloc)?,
        })
    }

    /// Whether its list follows messages.
    pub fn runs(&self) -> bool
        ensures { result ≡ runs self.now }
    {
        match self.state {
            SearchState::Running => true,
            SearchState::Static | SearchState::Stopped => false,
        }
    }

    /// Whether it looks in a folder: the folder is a plain one, and is given, or stands below one that is given where the search is recursive. Takes no memory.
    pub fn looks_in(&self, places: &Places, folder: Nid) -> bool
        ensures { result ≡ in_scope places.now self.now folder.bits }
    {
        is_reached(places, self.scope.as_slice(), self.recursive, folder)
    }

    /// The message, if there is one and the search looks in its folder.
    fn looked_at<'a>(&self, places: &Places, message: Option<&'a Message>) -> Option<&'a Message>
        ensures { option_copied result ≡ looked_at places.now self.now (option_copied message.entry) }
    {
        match message {
            Some(message) => {
                if self.looks_in(places, message.folder) {
                    Some(message)
                } else {
                    None
                }
            }
            None => None,
        }
    }

    /// What becomes of a message in the list, where it was `old` while folders stood as in `before`, and is `new` while they stand as in `after`. It asks its restriction only of a message in whose folder it looks; each restriction that is reached is one step. Takes no memory.
    pub fn touch<L: Ledger>(
        &self,
        before: &Places,
        after: &Places,
        old: Option<&Message>,
        new: Option<&Message>,
        steps: &mut Steps<L>,
    ) -> Delta
        ensures delta { result ≡ delta_in (places_around before.now after.now) self.now (option_copied old.entry) (option_copied new.entry) }
        ensures steps { steps.new ≡ steps.old + steps_in (places_around before.now after.now) self.now (option_copied old.entry) (option_copied new.entry) }
        ensures most { steps.new ≤ steps.old + work_in (places_around before.now after.now) self.now (option_copied old.entry) (option_copied new.entry) }
    {
        let was = self.looked_at(before, old);
        let is = self.looked_at(after, new);
        touch(&self.restriction, was, is, steps)
    }
}

/// The searches with criteria of a store. Contracts see the list, which ascends by id.
#[derive(Debug, Drop)]
pub struct Searches {
    searches: Vec<OwnSearch>,
}

impl Model for Searches {
    ghost use Rattle.std.specs.Prelude.{◌≡◌, List, true};
    ghost use Rattle.mapi_values.specs.Keyed.{keys_ascend};
    ghost use Rattle.mail_searches.specs.Searches.{Search};

    ghost Value = { List Search };

    ghost use Rattle.std.specs.Coded.{codes};
    ghost use Rattle.mail_searches.specs.contracts.following.OwnSearch as stored;

    ghost coded = { Prim.hlevel (codes, stored.the_row.coded) };

    ghost view = { λ s. s.searches.items };

    ghost invariant = { λ s. keys_ascend (λ x. x.nid) 0 s.searches.items ≡ true };
}

impl Searches {
    /// No searches. Takes no memory.
    pub fn new(alloc: Global) -> Searches
        ensures { result ≡ [] }
    {
        Searches {
            searches: Vec::new(alloc),
        }
    }

    /// The searches, ascending by id.
    pub fn as_slice(&self) -> &[OwnSearch]
        ensures { result.now ≡ self.now }
    {
        self.searches.as_slice()
    }

    /// Puts a search in place of the one with its folder. An `Err` changes nothing.
    pub fn put(&mut self, search: OwnSearch) -> Result<(), AllocError>
        ensures ok { OnOk result (self.new ≡ put_key (λ s. s.nid) search self.old) }
        ensures err { OnErr result (self.new ≡ self.old) }
    {
        put_keyed(&mut self.searches, search)
    }

    /// How many there are.
    pub fn count(&self) -> usize
        ensures { result ≡ length self.now }
    {
        self.searches.len()
    }

    /// The same searches again.
    pub fn copy(&self, alloc: Global) -> Result<Searches, AllocError>
        ensures { IfOk result (λ ss. ss ≡ self.now) }
    {
        let mut searches = Vec::new(alloc);
        for search in &self.searches {
            searches.push(search.copy(alloc)?)?;
        }
        Ok(Searches { searches })
    }

    /// These, with a search in place of the one with its folder.
    pub fn with(&self, alloc: Global, search: OwnSearch) -> Result<Searches, AllocError>
        ensures { IfOk result (λ ss. ss ≡ put_key (λ s. s.nid) search self.now) }
    {
        let mut searches = self.copy(alloc)?;
        searches.put(search)?;
        Ok(searches)
    }

    /// These, without the search with this folder.
    pub fn without(&self, alloc: Global, folder: Nid) -> Result<Searches, AllocError>
        ensures { IfOk result (λ ss. ss ≡ drop_key (λ s. s.nid) folder.bits self.now) }
    {
        let mut searches = Vec::new(alloc);
        for search in &self.searches {
            searches.push(search.copy(alloc)?)?;
        }
        let _was_there = drop_keyed(&mut searches, folder.bits);
        Ok(Searches { searches })
    }
}
