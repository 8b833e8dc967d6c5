//! What a store knows of its tree after a command whose changes were made elsewhere.
ghost use Rattle.std.specs.Prelude.{◌≡◌};
ghost use Rattle.mail_searches.specs.Criteria.{Coming};
ghost use Rattle.mail_searches.specs.Searching.{Searching};
ghost use Rattle.mail_searches.specs.Step.{after};
ghost use Rattle.mail_tree.specs.Knowing.{Knows};
ghost use Rattle.pinned_session.specs.store_session.mail_store.Planning.{PlansTo};
ghost use Rattle.pinned_session.specs.store_session.search_folders.Comings.{KnowsSearches, new_or_old};
ghost use Rattle.pinned_session.specs.store_session.search_store.Planning.{StoresSearches};

use mail_searches::KnownSearches;
use mail_tree::Known;
use node_port::Counts;
use pinned_session::store_session::Store;
use pinned_session::store_session::search_store::{PlannedSearch, SearchStore, commit};
use staged_nodes::{CountKeeper, Nowhere};

/// What a store knows of its tree and its searches after a planned command, whose changes of nodes were made elsewhere. Takes no memory.
pub(crate) fn settle(
    known: Known,
    searches: KnownSearches,
    counts: Counts,
    planned: PlannedSearch<Counts>,
) -> (Known, KnownSearches)
    // A tree that is shown by any nodes will do, since what is known is no matter of them.
    ensures knows { (X : Searching) (o : Coming) → StoresSearches (λ N. Unit {0}) counts.last known searches X → PlansTo (λ ready last cs. ready.last ≡ last) X.tree o.outcome planned.tree.change planned.tree.places planned.tree.flags.items planned.tree.reply
        → o.own ≡ new_or_old X.own planned.own → o.searches ≡ new_or_old X.searches planned.searches → Knows (after X o).tree result.0 × KnowsSearches (after X o) result.1 }
{
    let mut store = SearchStore {
        store: Store {
            keeper: CountKeeper { counts },
            known,
        },
        searches,
    };
    // (without a disk it can't fail)
    let _done = commit(&mut store, &mut Nowhere::new(), planned);
    let SearchStore {
        store: Store { known, .. },
        searches,
    } = store;
    (known, searches)
}
