//! Transactions opened and dropped.
ghost use Rattle.std.specs.Prelude.{◌≡◌, ℕ, Bool, List, Option, true, IfErr, IfOk};
ghost use Rattle.line_server.specs.Worlds.{Quiet};
ghost use Rattle.mail_searches.specs.Searching.{Searching};
ghost use Rattle.mail_tree.specs.Knowing.{Knows};
ghost use Rattle.mail_tree.specs.Tree.{Tree};
ghost use Rattle.staged_store.specs.staged_nodes.Staged.{none_staged};
ghost use Rattle.staged_store.specs.staged_nodes.Staging.{IsStaged};
ghost use Rattle.staged_store.specs.pinned_session.Sits.{Sits};
ghost use Rattle.staged_store.specs.pinned_session.Sitting.{Sitting};
ghost use Rattle.staged_store.specs.pinned_session.Viewing.{viewing_of};
ghost use Rattle.staged_store.specs.pinned_session.mail_reading.search_folders.Comings.{KnowsSearches};
ghost use Rattle.staged_store.specs.pinned_session.store_session.Carrying.{CarriesOut, IsCaused};
ghost use Rattle.staged_store.specs.pinned_session.store_session.Disks.{effects_of, medium};
ghost use Rattle.mail_transactions.specs.Opening.{inside, outside, read_as};
ghost use Rattle.mail_transactions.specs.Stands.{IsWithin, Stands, StandsCommitted, store_before};
ghost use Rattle.mail_transactions.specs.State.{State, Within};
ghost use Rattle.session_lines.specs.declared.line.TransactionLine.TheVariants.{Begin, Rollback};
ghost use Rattle.mail_transactions.specs.Run.{SaysTo};

use crate::store::{OpenTransaction, SessionStore};
use command_text::CommandRefusal;
use line_server::Spoken;
use node_port::{KeepStop, Pinner, Saver};
use pst_outside::Outside;
use staged_store::pinned_session::session_lines::{TransactionReply, transaction_reply_text};
use staged_store::pinned_session::store_session::{StoreStop, refusal_spoken};
use staged_store::pinned_session::{OpenViews, PinView, PinnedStore, view_of};
use staged_store::staged_nodes::{CellsLeft, Staging, cells_left};
use std::alloc::{AllocError, Global};

/// What a reading that stopped comes to.
fn read_stopped(stop: KeepStop) -> Result<Spoken, StoreStop>
    ensures { result ≡ read_as stop }
{
    match stop {
        KeepStop::Fault => Err(StoreStop::Disk),
        KeepStop::Changed {
            ib,
            stored,
            computed,
        } => Err(StoreStop::Changed {
            ib,
            stored,
            computed,
        }),
        KeepStop::Memory => Ok(Spoken::NoMemory),
    }
}

/// A transaction without changes over a store that has this room.
fn new_transaction<W: Outside, K: Pinner<W> + Saver<W>>(
    alloc: Global,
    pinned: &PinnedStore<K>,
    _world: &W,
    left: CellsLeft,
) -> Result<OpenTransaction, AllocError>
    ensures staged { IfOk result (λ t. IsStaged t.staging none_staged) }
    ensures counts { IfOk result (λ t. t.staging.counts.last ≡ K.last pinned.now.store.store.keeper) }
    ensures left { IfOk result (λ t. t.staging.left ≡ left) }
    ensures known { IfOk result (λ t. (T : Tree) → Knows T pinned.now.store.store.known → Knows T t.known) }
    ensures searches { IfOk result (λ t. (X : Searching) → KnowsSearches X pinned.now.store.searches → KnowsSearches X t.searches) }
    ensures views { IfOk result (λ t. viewing_of t.views ≡ viewing_of pinned.now.views) }
{
    let counts = pinned.store.store.keeper.counts();
    let known = &pinned.store.store.known;
    let view = view_of(alloc, 0, counts, known, &pinned.store.searches)?;
    let views = pinned.views.copy(alloc)?;
    let PinView {
        known,
        searches,
        ..
    } = view;
    Ok(OpenTransaction {
        staging: Staging::new(alloc, counts, left),
        known,
        searches,
        views,
    })
}

/// Opens a transaction over a store that has none. Its reply is made before, and where there is no memory nothing changes.
fn open_new<W: Outside, K: Pinner<W> + Saver<W>>(
    alloc: Global,
    pinned: PinnedStore<K>,
    world: &mut W,
) -> (SessionStore<K>, Result<Spoken, StoreStop>)
    ensures carries { (found : List ℕ) (tidy : Bool) (S : Sitting) → Sits W.view K.holds K.last K.pinned K.room K.rests pinned world.old found tidy S → (K.has_disk ≡ true → (W.view world.new).tells)
        → CarriesOut (Stands W.view K.holds K.last K.pinned K.room K.rests result.0 world.new found tidy) (StandsCommitted K.stands found tidy) (SaysTo (λ pins. effects_of pins K.measures K.applied K.saved) (K.room pinned.store.store.keeper) (outside S) (medium (W.view world.old)) Begin) (W.view world.old) (W.view world.new) (outside S) result.1 }
    ensures cause { IfErr result.1 (IsCaused K.has_disk (W.view world.old) (W.view world.new)) }
    ensures quiet { Quiet (W.view world.old) (W.view world.new) }
{
    let mut pinned = pinned;
    let Ok(text) = transaction_reply_text(alloc, TransactionReply::Done) else {
        return (SessionStore { pinned, open: None }, Ok(Spoken::NoMemory));
    };
    match cells_left(alloc, &mut pinned.store.store.keeper, world) {
        Ok(left) => match new_transaction(alloc, &pinned, world, left) {
            Ok(transaction) => {
                let session = SessionStore {
                    pinned,
                    open: Some(transaction),
                };
                (session, Ok(Spoken::Reply(text)))
            }
            Err(AllocError) => (SessionStore { pinned, open: None }, Ok(Spoken::NoMemory)),
        },
        Err(stop) => (SessionStore { pinned, open: None }, read_stopped(stop)),
    }
}

/// Opens a transaction. Within a transaction `begin` is no line.
pub(crate) fn begin<W: Outside, K: Pinner<W> + Saver<W>>(
    alloc: Global,
    session: SessionStore<K>,
    world: &mut W,
) -> (SessionStore<K>, Result<Spoken, StoreStop>)
    ensures carries { (found : List ℕ) (tidy : Bool) (S : State) → Stands W.view K.holds K.last K.pinned K.room K.rests session world.old found tidy S → (K.has_disk ≡ true → (W.view world.new).tells)
        → CarriesOut (Stands W.view K.holds K.last K.pinned K.room K.rests result.0 world.new found tidy) (StandsCommitted K.stands found tidy) (SaysTo (λ pins. effects_of pins K.measures K.applied K.saved) (K.room session.pinned.store.store.keeper) S (medium (W.view world.old)) Begin) (W.view world.old) (W.view world.new) S result.1 }
    ensures cause { IfErr result.1 (IsCaused K.has_disk (W.view world.old) (W.view world.new)) }
    ensures quiet { Quiet (W.view world.old) (W.view world.new) }
{
    let SessionStore { pinned, open } = session;
    match open {
        None => open_new(alloc, pinned, world),
        Some(transaction) => {
            let session = SessionStore {
                pinned,
                open: Some(transaction),
            };
            (session, Ok(refusal_spoken(alloc, CommandRefusal::Line)))
        }
    }
}

/// The store as it was when its transaction began; no number of a view is given again.
fn taken_back<K>(pinned: PinnedStore<K>, transaction: OpenTransaction) -> PinnedStore<K>
    ensures { result ≡ store_before pinned transaction }
{
    let PinnedStore {
        mut store,
        given,
        pins,
        views,
    } = pinned;
    let OpenTransaction {
        known,
        searches,
        views: before,
        ..
    } = transaction;
    store.store.known = known;
    store.searches = searches;
    PinnedStore {
        store,
        given,
        pins,
        views: OpenViews {
            given: views.given,
            opened: before.opened,
        },
    }
}

/// Drops a transaction. Its reply is made before, and where there is no memory nothing changes.
fn drop_open<W: Outside, K: Pinner<W> + Saver<W>>(
    alloc: Global,
    pinned: PinnedStore<K>,
    transaction: OpenTransaction,
    world: &mut W,
) -> (SessionStore<K>, Result<Spoken, StoreStop>)
    ensures carries { (found : List ℕ) (tidy : Bool) (w : Within) (S : Sitting) → IsWithin W.view K.holds K.last K.pinned K.room K.rests pinned transaction world.old found tidy w S → (K.has_disk ≡ true → (W.view world.new).tells)
        → CarriesOut (Stands W.view K.holds K.last K.pinned K.room K.rests result.0 world.new found tidy) (StandsCommitted K.stands found tidy) (SaysTo (λ pins. effects_of pins K.measures K.applied K.saved) (K.room pinned.store.store.keeper) (inside S w) (medium (W.view world.old)) Rollback) (W.view world.old) (W.view world.new) (inside S w) result.1 }
    ensures cause { IfErr result.1 (IsCaused K.has_disk (W.view world.old) (W.view world.new)) }
    ensures quiet { Quiet (W.view world.old) (W.view world.new) }
{
    match transaction_reply_text(alloc, TransactionReply::Done) {
        Ok(text) => {
            let session = SessionStore {
                pinned: taken_back(pinned, transaction),
                open: None,
            };
            (session, Ok(Spoken::Reply(text)))
        }
        Err(AllocError) => {
            let session = SessionStore {
                pinned,
                open: Some(transaction),
            };
            (session, Ok(Spoken::NoMemory))
        }
    }
}

/// Drops the transaction. Outside of a transaction `rollback` is no line.
pub(crate) fn roll_back<W: Outside, K: Pinner<W> + Saver<W>>(
    alloc: Global,
    session: SessionStore<K>,
    world: &mut W,
) -> (SessionStore<K>, Result<Spoken, StoreStop>)
    ensures carries { (found : List ℕ) (tidy : Bool) (S : State) → Stands W.view K.holds K.last K.pinned K.room K.rests session world.old found tidy S → (K.has_disk ≡ true → (W.view world.new).tells)
        → CarriesOut (Stands W.view K.holds K.last K.pinned K.room K.rests result.0 world.new found tidy) (StandsCommitted K.stands found tidy) (SaysTo (λ pins. effects_of pins K.measures K.applied K.saved) (K.room session.pinned.store.store.keeper) S (medium (W.view world.old)) Rollback) (W.view world.old) (W.view world.new) S result.1 }
    ensures cause { IfErr result.1 (IsCaused K.has_disk (W.view world.old) (W.view world.new)) }
    ensures quiet { Quiet (W.view world.old) (W.view world.new) }
{
    let SessionStore { pinned, open } = session;
    match open {
        None => {
            let session = SessionStore { pinned, open: None };
            (session, Ok(refusal_spoken(alloc, CommandRefusal::Line)))
        }
        Some(transaction) => drop_open(alloc, pinned, transaction, world),
    }
}
