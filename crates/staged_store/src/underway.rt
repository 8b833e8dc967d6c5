//! A store with a transaction.
use pinned_session::OpenViews;
use pinned_session::store_session::SearchStore;
use staged_nodes::Staging;

/// A store over a keeper that stays as it is, the changes of its transaction, and its views. What the store knows is so of the tree that the nodes show with these changes.
#[derive(Drop)]
pub struct StagedStore<K> {
    pub store: SearchStore<K>,
    pub staging: Staging,
    pub views: OpenViews,
}
