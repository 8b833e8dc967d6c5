//! A store with its pins, its views and its transaction.
ghost use Rattle.std.specs.Prelude.{◌≡◌, [], None};
ghost use Rattle.staged_store.specs.pinned_session.Viewing.{viewing_of};

use mail_searches::KnownSearches;
use mail_tree::Known;
use staged_store::pinned_session::store_session::search_store::SearchStore;
use staged_store::pinned_session::{OpenViews, PinnedStore};
use staged_store::staged_nodes::Staging;
use std::alloc::Global;

/// A transaction that is open: its changes, and of the moment when it began what was known of the tree, and the views.
#[derive(Drop)]
pub struct OpenTransaction {
    pub staging: Staging,
    pub known: Known,
    pub searches: KnownSearches,
    pub views: OpenViews,
}

/// A store with its pins and its views, and the transaction, if one is open. Within a transaction the keeper has the nodes from before it, and what the store knows is so of the tree as the lines left it.
#[derive(Drop)]
pub struct SessionStore<K> {
    pub pinned: PinnedStore<K>,
    pub open: Option<OpenTransaction>,
}

impl<K> SessionStore<K> {
    /// A session that begins: a store without pins, views and transaction. Takes no memory.
    pub fn new(alloc: Global, store: SearchStore<K>) -> SessionStore<K>
        ensures store { result.pinned.store ≡ store }
        ensures given { result.pinned.given ≡ 0 }
        ensures pins { result.pinned.pins.items ≡ [] }
        ensures views { viewing_of result.pinned.views ≡ record { given = 0; opened = [] } }
        ensures none { result.«open» ≡ None }
    {
        let pinned = PinnedStore {
            store,
            given: 0,
            pins: Vec::new(alloc),
            views: OpenViews::new(alloc),
        };
        SessionStore { pinned, open: None }
    }
}
