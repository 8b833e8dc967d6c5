//! A session over a store.
ghost use Rattle.std.specs.Prelude.{◌≡◌, Bool, true};
ghost use Rattle.pst_outside.specs.Calls.{NeverFall};
ghost use Rattle.node_port.specs.Pins.{no_pins};
ghost use Rattle.mail_searches.specs.Searching.{Searching};
ghost use Rattle.staged_store.specs.pinned_session.store_session.Carrying.{Has};
ghost use Rattle.staged_store.specs.pinned_session.store_session.Disks.{effects_of, medium};
ghost use Rattle.staged_store.specs.pinned_session.store_session.Session.{HasCause};
ghost use Rattle.mail_transactions.specs.Session.{SessionEnds};
ghost use Rattle.mail_transactions.specs.Stands.{IsOrdered, StandsCommitted};
ghost use Rattle.mail_transactions.specs.State.{begins};

use crate::answerer::SessionAnswerer;
use crate::store::SessionStore;
use line_server::serve;
use node_port::{Pinner, Saver};
use pst_outside::Outside;
use staged_store::pinned_session::store_session::search_store::SearchStore;
use staged_store::pinned_session::store_session::{SessionEnd, end_of};
use std::alloc::{AllocError, Global};

/// A session over a store without pins: takes lines until the input ends, a line is `quit`, a device fails, something changed, or 2^32 lines were taken.
pub fn run_session<W: Outside, K: Pinner<W> + Saver<W> + Drop>(
    alloc: Global,
    store: SearchStore<K>,
    world: &mut W,
) -> SessionEnd
    // From a store that has a tree with its searches in order, where the world tells what a disk holds: the replies are those of a run from disk to disk, and a stop at any moment leaves the committed tree after some of its turns, in order with its searches, and tidy where it was so at the start.
    ensures ends { (tidy : Bool) (X : Searching) → Has (K.holds store.store.keeper (W.view world.old)) (K.last store.store.keeper) store.store.known store.searches K.rests (W.view world.old) tidy X → (K.room store.store.keeper).pins ≡ no_pins → (K.has_disk ≡ true → (W.view world.new).tells)
        → SessionEnds (λ pins. effects_of pins K.measures K.applied K.saved) (StandsCommitted K.stands (K.room store.store.keeper).found tidy) (IsOrdered tidy) K.rests (medium (W.view world.old)) (W.view world.old) (W.view world.new) (begins X) result }
    ensures cause { HasCause K.has_disk (W.view world.old) (W.view world.new) result }
    ensures no_memory { result ≡ SessionEnd.Memory → world.new ≡ world.old }
    ensures told { (W.view world.new).tells → (W.view world.old).tells }
    ensures counts { NeverFall (W.view world.old) (W.view world.new) }
{
    let mut answerer = SessionAnswerer {
        session: Some(SessionStore::new(alloc, store)),
    };
    match serve(alloc, &mut answerer, world) {
        Ok(end) => end_of(end),
        Err(AllocError) => SessionEnd::Memory,
    }
}
