//! Transactions committed.
ghost use Rattle.std.specs.Prelude.{◌≡◌, ◌≤◌, ◌^◌, ℕ, Bool, List, Option, [], true, IfErr, IsTrue};
ghost use Rattle.line_server.specs.Worlds.{Quiet};
ghost use Rattle.pst_outside.specs.Calls.{Settled};
ghost use Rattle.node_port.specs.Nodes.{Nodes, ascend};
ghost use Rattle.staged_store.specs.pinned_session.Sitting.{Sitting};
ghost use Rattle.staged_store.specs.pinned_session.store_session.Carrying.{CarriesOut, IsCaused};
ghost use Rattle.staged_store.specs.pinned_session.store_session.Disks.{effects_of, medium};
ghost use Rattle.mail_transactions.specs.Committing.{CommitsAs, HasRoomFor, unprepared};
ghost use Rattle.mail_transactions.specs.Opening.{inside};
ghost use Rattle.mail_transactions.specs.Stands.{IsWithin, Stands, StandsCommitted};
ghost use Rattle.mail_transactions.specs.State.{State, Within};
ghost use Rattle.session_lines.specs.declared.line.TransactionLine.TheVariants.{Commit};
ghost use Rattle.mail_transactions.specs.Run.{SaysTo};

use crate::store::{OpenTransaction, SessionStore};
use command_text::CommandRefusal;
use line_server::Spoken;
use node_port::{Changes, Keeper, Pinner, PrepareStop, Saver};
use pst_outside::Outside;
use staged_store::pinned_session::PinnedStore;
use staged_store::pinned_session::session_lines::{TransactionReply, transaction_reply_text};
use staged_store::pinned_session::store_session::{StoreStop, refusal_spoken};
use std::alloc::{AllocError, Global};

/// What a plan of the changes that stopped comes to. Each line of a transaction had its room, so that want of room and of numbers never come.
fn unprepared(stop: PrepareStop) -> Result<bool, StoreStop>
    ensures { result ≡ unprepared stop }
{
    match stop {
        PrepareStop::Fault => Err(StoreStop::Disk),
        PrepareStop::Changed {
            ib,
            stored,
            computed,
        } => Err(StoreStop::Changed {
            ib,
            stored,
            computed,
        }),
        PrepareStop::Memory => Ok(false),
        PrepareStop::Full { .. } | PrepareStop::IdsSpent => Err(StoreStop::Changed {
            ib: 0,
            stored: 0,
            computed: 0,
        }),
    }
}

/// Commits changes to a keeper, whose nodes ascend, if there are some, and says whether it did: `false` where there was no memory, and then nothing changed.
fn commit_changes<W: Outside, K: Keeper<W>>(
    alloc: Global,
    keeper: &mut K,
    world: &mut W,
    changes: Changes,
) -> Result<bool, StoreStop>
    requires order { IsTrue (ascend 0 changes.nodes.items) }
    requires room { changes.room ≤ 2 ^ 60 }
    ensures commits { (N : Nodes) → K.holds keeper.old (W.view world.old) N → Settled (W.view world.old) → ((W.view world.old).tells → K.rests (W.view world.old).here) → (K.has_disk ≡ true → (W.view world.new).tells)
        → (changes.nodes.items ≡ [] → changes.counts.last ≡ K.last keeper.old) → HasRoomFor (K.room keeper.old) changes.room changes.nodes.items
        → CommitsAs (K.stands (K.room keeper.old).found) (K.applied (K.room keeper.old).pins) (K.holds keeper.new (W.view world.new)) (K.pinned keeper.old (W.view world.old)) (K.pinned keeper.new (W.view world.new)) (K.last keeper.old) (K.last keeper.new) (K.room keeper.old) (K.room keeper.new) K.rests
        (W.view world.old) (W.view world.new) N changes.nodes.items changes.counts.last result }
    ensures cause { IfErr result (IsCaused K.has_disk (W.view world.old) (W.view world.new)) }
    ensures quiet { Quiet (W.view world.old) (W.view world.new) }
{
    if changes.nodes.is_empty() {
        return Ok(true);
    }
    match keeper.prepare(alloc, world, changes) {
        Ok(ready) => match keeper.apply(world, ready) {
            Ok(()) => Ok(true),
            Err(_) => Err(StoreStop::Disk),
        },
        Err(stop) => unprepared(stop),
    }
}

/// Commits a transaction as one. Its reply is made before, and where there is no memory nothing changes and it stays open.
fn commit_open<W: Outside, K: Pinner<W> + Saver<W>>(
    alloc: Global,
    pinned: PinnedStore<K>,
    transaction: OpenTransaction,
    world: &mut W,
) -> (SessionStore<K>, Result<Spoken, StoreStop>)
    ensures carries { (found : List ℕ) (tidy : Bool) (w : Within) (S : Sitting) → IsWithin W.view K.holds K.last K.pinned K.room K.rests pinned transaction world.old found tidy w S → (K.has_disk ≡ true → (W.view world.new).tells)
        → CarriesOut (Stands W.view K.holds K.last K.pinned K.room K.rests result.0 world.new found tidy) (StandsCommitted K.stands found tidy) (SaysTo (λ pins. effects_of pins K.measures K.applied K.saved) (K.room pinned.store.store.keeper) (inside S w) (medium (W.view world.old)) Commit) (W.view world.old) (W.view world.new) (inside S w) result.1 }
    ensures cause { IfErr result.1 (IsCaused K.has_disk (W.view world.old) (W.view world.new)) }
    ensures quiet { Quiet (W.view world.old) (W.view world.new) }
{
    let mut pinned = pinned;
    let Ok(text) = transaction_reply_text(alloc, TransactionReply::Done) else {
        let open = Some(transaction);
        return (SessionStore { pinned, open }, Ok(Spoken::NoMemory));
    };
    let Ok(changes) = transaction.staging.changes(alloc) else {
        let open = Some(transaction);
        return (SessionStore { pinned, open }, Ok(Spoken::NoMemory));
    };
    match commit_changes(alloc, &mut pinned.store.store.keeper, world, changes) {
        Ok(true) => (SessionStore { pinned, open: None }, Ok(Spoken::Reply(text))),
        Ok(false) => {
            let open = Some(transaction);
            (SessionStore { pinned, open }, Ok(Spoken::NoMemory))
        }
        Err(stop) => {
            let open = Some(transaction);
            (SessionStore { pinned, open }, Err(stop))
        }
    }
}

/// Commits the transaction. Outside of a transaction `commit` is no line.
pub(crate) fn commit<W: Outside, K: Pinner<W> + Saver<W>>(
    alloc: Global,
    session: SessionStore<K>,
    world: &mut W,
) -> (SessionStore<K>, Result<Spoken, StoreStop>)
    ensures carries { (found : List ℕ) (tidy : Bool) (S : State) → Stands W.view K.holds K.last K.pinned K.room K.rests session world.old found tidy S → (K.has_disk ≡ true → (W.view world.new).tells)
        → CarriesOut (Stands W.view K.holds K.last K.pinned K.room K.rests result.0 world.new found tidy) (StandsCommitted K.stands found tidy) (SaysTo (λ pins. effects_of pins K.measures K.applied K.saved) (K.room session.pinned.store.store.keeper) S (medium (W.view world.old)) Commit) (W.view world.old) (W.view world.new) S result.1 }
    ensures cause { IfErr result.1 (IsCaused K.has_disk (W.view world.old) (W.view world.new)) }
    ensures quiet { Quiet (W.view world.old) (W.view world.new) }
{
    let SessionStore { pinned, open } = session;
    match open {
        None => {
            let session = SessionStore { pinned, open: None };
            (session, Ok(refusal_spoken(alloc, CommandRefusal::Line)))
        }
        Some(transaction) => commit_open(alloc, pinned, transaction, world),
    }
}
