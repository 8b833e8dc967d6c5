//! Lines answered.
ghost use Rattle.std.specs.Prelude.{◌≡◌, ℕ, Bool, List, true, IfErr};
ghost use Rattle.line_server.specs.Worlds.{Quiet};
ghost use Rattle.staged_store.specs.pinned_session.store_session.Carrying.{CarriesOut, IsCaused};
ghost use Rattle.staged_store.specs.pinned_session.store_session.Disks.{effects_of, medium};
ghost use Rattle.pst_outside.specs.Calls.{Untouched};
ghost use Rattle.staged_store.specs.Saying.{Underway};
ghost use Rattle.staged_store.specs.Standing.{Responds};
ghost use Rattle.staged_store.specs.pinned_session.Sitting.{Sitting};
ghost use Rattle.mail_transactions.specs.Stands.{IsWithin, Stands, StandsCommitted};
ghost use Rattle.mail_transactions.specs.State.{State, Within, underway};
ghost use Rattle.line_server.specs.Lines.{line};
ghost use Rattle.session_lines.specs.declared.line.TransactionLine.TheVariants.{Session};
ghost use Rattle.command_text.specs.Asking.{asks};
ghost use Rattle.command_text.specs.declared.command.Command.{Command};
ghost use Rattle.session_lines.specs.declared.line.SessionLine.TheVariants.{At};
ghost use Rattle.std.specs.Prelude.{Option};
ghost use Rattle.mail_transactions.specs.Run.{Answers, SaysTo};

use crate::committing::commit;
use crate::opening::{begin, roll_back};
use crate::store::{OpenTransaction, SessionStore};
use command_text::CommandRefusal;
use line_server::Spoken;
use node_port::{Pinner, Saver};
use pst_base::MemOr;
use pst_outside::Outside;
use staged_store::pinned_session::session_lines::{
    SessionLine, TransactionLine, read_transaction_line,
};
use staged_store::pinned_session::store_session::{StoreStop, refusal_spoken};
use staged_store::pinned_session::{PinnedStore, answer};
use staged_store::{StagedStore, answer_within};
use std::alloc::Global;

/// Answers a line within a transaction, over the store and its transaction.
fn answer_staged<W: Outside, K: Pinner<W> + Saver<W>>(
    alloc: Global,
    pinned: PinnedStore<K>,
    transaction: OpenTransaction,
    world: &mut W,
    asked: &SessionLine,
) -> (PinnedStore<K>, OpenTransaction, Result<Spoken, StoreStop>)
    ensures responds { (found : List ℕ) (tidy : Bool) (w : Within) (S : Sitting) → IsWithin W.view K.holds K.last K.pinned K.room K.rests pinned transaction world.old found tidy w S
        → Responds (K.room pinned.store.store.keeper) (underway S w) asked.now (λ U. IsWithin W.view K.holds K.last K.pinned K.room K.rests result.0 result.1 world.new found tidy (record w { nodes = U.nodes }) (record S { now = U.now; views = U.views })) result.2 }
    ensures same { Untouched (W.view world.old) (W.view world.new) }
    ensures cause { IfErr result.2 (IsCaused K.has_disk (W.view world.old) (W.view world.new)) }
{
    let PinnedStore {
        store,
        given,
        pins,
        views,
    } = pinned;
    let OpenTransaction {
        staging,
        known,
        searches,
        views: before,
    } = transaction;
    let under = StagedStore {
        store,
        staging,
        views,
    };
    let (under, answer) = answer_within(alloc, under, world, asked);
    let StagedStore {
        store,
        staging,
        views,
    } = under;
    let pinned = PinnedStore {
        store,
        given,
        pins,
        views,
    };
    let transaction = OpenTransaction {
        staging,
        known,
        searches,
        views: before,
    };
    (pinned, transaction, answer)
}

/// Answers a line that isn't on transactions: within one or outside.
fn answer_session<W: Outside, K: Pinner<W> + Saver<W>>(
    alloc: Global,
    session: SessionStore<K>,
    world: &mut W,
    asked: &SessionLine,
) -> (SessionStore<K>, Result<Spoken, StoreStop>)
    requires read { (pin : Option ℕ) (c : Command) → asked.now ≡ At pin c → asks c ≡ true }
    ensures carries { (found : List ℕ) (tidy : Bool) (S : State) → Stands W.view K.holds K.last K.pinned K.room K.rests session world.old found tidy S → (K.has_disk ≡ true → (W.view world.new).tells)
        → CarriesOut (Stands W.view K.holds K.last K.pinned K.room K.rests result.0 world.new found tidy) (StandsCommitted K.stands found tidy) (SaysTo (λ pins. effects_of pins K.measures K.applied K.saved) (K.room session.pinned.store.store.keeper) S (medium (W.view world.old)) (Session asked.now)) (W.view world.old) (W.view world.new) S result.1 }
    ensures cause { IfErr result.1 (IsCaused K.has_disk (W.view world.old) (W.view world.new)) }
    ensures quiet { Quiet (W.view world.old) (W.view world.new) }
{
    let SessionStore { pinned, open } = session;
    match open {
        None => {
            let (pinned, answer) = answer(alloc, pinned, world, asked);
            let session = SessionStore { pinned, open: None };
            (session, answer)
        }
        Some(transaction) => {
            let (pinned, transaction, answer) = answer_staged(
                alloc,
                pinned,
                transaction,
                world,
                asked,
            );
            let session = SessionStore {
                pinned,
                open: Some(transaction),
            };
            (session, answer)
        }
    }
}

/// Answers a line, and gives the session back: reads it, and does what it asks for. The reply is made before anything is changed, and says `no memory` where there was none; then nothing is changed.
///
/// An `Err` comes where the disk failed, or something isn't as it was found before; the latter never of a store that has a tree.
pub fn answer_line<W: Outside, K: Pinner<W> + Saver<W>>(
    alloc: Global,
    session: SessionStore<K>,
    world: &mut W,
    bytes: &[u8],
) -> (SessionStore<K>, Result<Spoken, StoreStop>)
    ensures carries { (found : List ℕ) (tidy : Bool) (S : State) → Stands W.view K.holds K.last K.pinned K.room K.rests session world.old found tidy S → (K.has_disk ≡ true → (W.view world.new).tells)
        → CarriesOut (Stands W.view K.holds K.last K.pinned K.room K.rests result.0 world.new found tidy) (StandsCommitted K.stands found tidy) (λ told. Answers (λ pins. effects_of pins K.measures K.applied K.saved) (K.room session.pinned.store.store.keeper) S (medium (W.view world.old)) told (line bytes.now)) (W.view world.old) (W.view world.new) S result.1 }
    ensures cause { IfErr result.1 (IsCaused K.has_disk (W.view world.old) (W.view world.new)) }
    ensures quiet { Quiet (W.view world.old) (W.view world.new) }
{
    match read_transaction_line(alloc, bytes) {
        Ok(TransactionLine::Begin) => begin(alloc, session, world),
        Ok(TransactionLine::Commit) => commit(alloc, session, world),
        Ok(TransactionLine::Rollback) => roll_back(alloc, session, world),
        Ok(TransactionLine::Session(asked)) => answer_session(alloc, session, world, &asked),
        Err(MemOr::Refused(refusal)) => {
            let spoken = refusal_spoken(alloc, CommandRefusal::from(refusal));
            (session, Ok(spoken))
        }
        Err(MemOr::Memory) => (session, Ok(Spoken::NoMemory)),
    }
}
