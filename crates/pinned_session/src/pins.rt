//! A store and what is known of its pins.
ghost use Rattle.std.specs.Prelude.{◌≡◌, ◌==◌, position, IfOk};
ghost use Rattle.mail_searches.specs.Searching.{Searching};
ghost use Rattle.mail_tree.specs.Knowing.{Knows};
ghost use Rattle.mail_tree.specs.Tree.{Tree};
ghost use Rattle.mail_reading.specs.search_folders.Comings.{KnowsSearches};
ghost use Rattle.pinned_session.specs.Views.{place_of};

use crate::views::OpenViews;
use mail_searches::KnownSearches;
use mail_tree::{Flags, Known};
use node_port::Counts;
use std::alloc::{AllocError, Global};
use store_session::search_store::SearchStore;

/// What is known of a pin beside its keeper: its number, and of the moment when it was made the counters and what was known of the tree.
#[derive(Drop)]
pub struct PinView {
    pub number: u32,
    pub counts: Counts,
    pub known: Known,
    pub searches: KnownSearches,
}

/// A store, how many numbers of pins were given, what is known of each open pin, and the views.
#[derive(Drop)]
pub struct PinnedStore<K> {
    pub store: SearchStore<K>,
    pub given: u32,
    pub pins: Vec<PinView>,
    pub views: OpenViews,
}

/// What is known of a tree now, for a pin of this number. Which messages are unread and what folders are named isn't kept: no command that asks needs it.
pub fn view_of(
    alloc: Global,
    number: u32,
    counts: Counts,
    known: &Known,
    searches: &KnownSearches,
) -> Result<PinView, AllocError>
    ensures number { IfOk result (λ view. view.number ≡ number) }
    ensures counts { IfOk result (λ view. view.counts ≡ counts) }
    ensures known { IfOk result (λ view. (T : Tree) → Knows T known.now → Knows T view.known) }
    ensures searches { IfOk result (λ view. (X : Searching) → KnowsSearches X searches.now → KnowsSearches X view.searches) }
{
    Ok(PinView {
        number,
        counts,
        known: Known {
            places: known.places.copy(alloc)?,
            flags: Flags::new(alloc),
        },
        searches: searches.copy(alloc)?,
    })
}

/// The place of the pin of a number among those that are open.
fn place_named(pins: &[PinView], number: u32) -> Option<usize>
    ensures { result ≡ position (λ view. view.number == number) pins.now }
{
    pins.iter().position(|view| view.number == number)
}

/// The place of the pin that a line names among those that are open.
pub(crate) fn place_of(pins: &[PinView], pin: Option<u32>) -> Option<usize>
    ensures { result ≡ place_of pin pins.now }
{
    match pin {
        Some(number) => place_named(pins, number),
        None => None,
    }
}
