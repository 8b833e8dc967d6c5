//! Commands of the store within a transaction.
ghost use Rattle.std.specs.Prelude.{◌≡◌, ◌⊎◌, ◌≤◌, Bool, Ok, true, false, IfErr, OnOk};
ghost use Rattle.std.specs.Option.{ForSome};
ghost use Rattle.command_text.specs.declared.command.Command.{Command};
ghost use Rattle.line_server.specs.Spoken.{no_memory_text, spoken_text};
ghost use Rattle.mail_searches.specs.Criteria.{Coming};
ghost use Rattle.mail_searches.specs.Step.{after, outcome};
ghost use Rattle.node_port.specs.Nodes.{Nodes};
ghost use Rattle.node_port.specs.Stops.{Room};
ghost use Rattle.pst_outside.specs.Calls.{Untouched};
ghost use Rattle.pinned_session.specs.Viewing.{standing};
ghost use Rattle.pinned_session.specs.store_session.Carrying.{IsCaused};
ghost use Rattle.pinned_session.specs.store_session.mail_draft.Answers.{IsCaused as IsDiskCaused};
ghost use Rattle.pinned_session.specs.store_session.mail_store.Space.{HasRoom};
ghost use Rattle.pinned_session.specs.store_session.search_store.Planning.{PlansComing};
ghost use Rattle.session_lines.specs.Texts.{transaction_text};
ghost use Rattle.staged_nodes.specs.Sizes.{MOST_STAGED as MOST};
ghost use Rattle.staged_nodes.specs.Staged.{Staged};
ghost use Rattle.staged_nodes.specs.Staging.{HasSlots, SameChanges};
ghost use Rattle.staged_store.specs.Planning.{Fills, PlansWithin, PutsTooMuch};
ghost use Rattle.staged_store.specs.Saying.{Adds, Underway, left};
ghost use Rattle.staged_store.specs.Standing.{IsUnderway, Stages};
ghost use Rattle.staged_store.specs.Telling.{Keeps};

use crate::reading::plan_keeping;
use crate::settling::settle;
use crate::underway::StagedStore;
use command_text::{Command, reply_text};
use line_server::Spoken;
use node_port::{Counts, NodeReader};
use pinned_session::close_views;
use pinned_session::session_lines::{TransactionReply, transaction_reply_text};
use pinned_session::store_session::mail_draft::Stop;
use pinned_session::store_session::mail_store::Planned;
use pinned_session::store_session::search_store::{PlannedSearch, SearchStore};
use pinned_session::store_session::{Store, StoreStop, stopped};
use pst_outside::Outside;
use staged_nodes::{MOST_STAGED, StagedReady, Staging};
use std::alloc::{AllocError, Global};

/// What is said to a line on transactions.
pub fn transaction_spoken(alloc: Global, reply: TransactionReply) -> Spoken
    ensures { (spoken_text result ≡ transaction_text reply) ⊎ (spoken_text result ≡ no_memory_text) }
{
    match transaction_reply_text(alloc, reply) {
        Ok(text) => Spoken::Reply(text),
        Err(AllocError) => Spoken::NoMemory,
    }
}

/// Whether the transaction would put too much with planned changes.
fn is_too_much(change: &Option<StagedReady>) -> bool
    ensures full { result ≡ true → PutsTooMuch change.now }
    ensures few { result ≡ false → ForSome change.now (λ ready. ready.size ≤ MOST) }
{
    match change {
        Some(ready) => ready.size > MOST_STAGED,
        None => false,
    }
}

/// Makes slots for planned changes. What the transaction has stays.
fn make_room(staging: &mut Staging, change: &Option<StagedReady>) -> Result<(), AllocError>
    ensures same { SameChanges staging.old.slots staging.new.slots }
    ensures slots { OnOk result (ForSome change.now (λ ready. HasSlots staging.new.slots ready.nodes.items)) }
    ensures counts { staging.new.counts ≡ staging.old.counts }
    ensures left { staging.new.left ≡ staging.old.left }
    ensures size { staging.new.size ≡ staging.old.size }
{
    match change {
        Some(ready) => staging.make_room(ready),
        None => Ok(()),
    }
}

/// Makes planned changes, if there are some, and gives the counters after them. Takes no memory.
fn fill(staging: &mut Staging, change: Option<StagedReady>) -> Option<Counts>
    requires { ForSome change (λ ready. HasSlots staging.old.slots ready.nodes.items) }
    ensures { Fills staging.old staging.new change result }
{
    match change {
        Some(ready) => {
            let counts = ready.counts;
            staging.fill(ready);
            Some(counts)
        }
        None => None,
    }
}

/// Makes the changes of a planned command, for which there are slots, and closes the views of a folder that is gone. Takes no memory.
fn make_changes<K>(under: StagedStore<K>, planned: PlannedSearch<StagedReady>) -> StagedStore<K>
    requires { ForSome planned.tree.change (λ ready. HasSlots under.staging.slots ready.nodes.items) }
    ensures made { (base : Nodes) (room : Room) (tidy : Bool) (U : Underway) (c : Command) (o : Coming) → IsUnderway base room under tidy U → outcome U.now c ≡ Ok o → PlansWithin under.staging U.now o planned → HasRoom (left room U) o.outcome.changed → ForSome planned.tree.change (λ ready. ready.size ≤ MOST)
        → (F : Staged) × Adds (Ok o) U.nodes F × IsUnderway base room result tidy (record { now = after U.now o; views = standing (after U.now o).tree.places U.views; nodes = F }) }
    ensures keeper { result.store.store.keeper ≡ under.store.store.keeper }
{
    let StagedStore {
        store,
        mut staging,
        mut views,
    } = under;
    let SearchStore {
        store: Store { keeper, known },
        searches: known_searches,
    } = store;
    let PlannedSearch {
        tree: Planned {
            change,
            places,
            flags,
            reply,
        },
        own,
        searches,
    } = planned;
    let counts = staging.counts;
    let change = fill(&mut staging, change);
    let planned = PlannedSearch {
        tree: Planned {
            change,
            places,
            flags,
            reply,
        },
        own,
        searches,
    };
    let (known, searches) = settle(known, known_searches, counts, planned);
    close_views(&mut views, &known.places);
    StagedStore {
        store: SearchStore {
            store: Store { keeper, known },
            searches,
        },
        staging,
        views,
    }
}

/// Makes the reply of a planned command and then its changes. Nothing changes where they are too much or memory runs out.
fn finish<K>(
    alloc: Global,
    under: StagedStore<K>,
    planned: PlannedSearch<StagedReady>,
) -> (StagedStore<K>, Spoken)
    ensures finishes { (base : Nodes) (room : Room) (tidy : Bool) (U : Underway) (c : Command) → IsUnderway base room under tidy U → PlansComing (left room U) (PlansWithin under.staging U.now) (outcome U.now c) (Ok planned) → Stages room U c (IsUnderway base room result.0 tidy) (Ok result.1) }
    ensures keeper { result.0.store.store.keeper ≡ under.store.store.keeper }
{
    if is_too_much(&planned.tree.change) {
        return (under, transaction_spoken(alloc, TransactionReply::Full));
    }
    let Ok(text) = reply_text(alloc, &planned.tree.reply) else {
        return (under, Spoken::NoMemory);
    };
    let mut under = under;
    let Ok(()) = make_room(&mut under.staging, &planned.tree.change) else {
        return (under, Spoken::NoMemory);
    };
    (make_changes(under, planned), Spoken::Reply(text))
}

/// What a command comes to within a transaction, and its changes beside those so far.
fn plan_within<W: Outside, K: NodeReader<W>>(
    alloc: Global,
    under: StagedStore<K>,
    world: &mut W,
    command: &Command,
) -> (StagedStore<K>, Result<PlannedSearch<StagedReady>, Stop>)
    ensures answer { (base : Nodes) (tidy : Bool) (U : Underway) → K.holds under.store.store.keeper (W.view world.old) base → IsUnderway base (K.room under.store.store.keeper) under tidy U
        → PlansComing (left (K.room under.store.store.keeper) U) (PlansWithin result.0.staging U.now) (outcome U.now command.now) result.1 }
    ensures underway { (base : Nodes) (tidy : Bool) (U : Underway) → K.holds under.store.store.keeper (W.view world.old) base → IsUnderway base (K.room under.store.store.keeper) under tidy U → IsUnderway base (K.room under.store.store.keeper) result.0 tidy U }
    ensures stays { (base : Nodes) (tidy : Bool) (U : Underway) → K.holds under.store.store.keeper (W.view world.old) base → IsUnderway base (K.room under.store.store.keeper) under tidy U
        → Keeps (K.holds under.store.store.keeper (W.view world.old)) (K.holds result.0.store.store.keeper (W.view world.new)) (K.pinned under.store.store.keeper (W.view world.old)) (K.pinned result.0.store.store.keeper (W.view world.new)) (K.last under.store.store.keeper) (K.last result.0.store.store.keeper) (K.room under.store.store.keeper) (K.room result.0.store.store.keeper) }
    ensures same { Untouched (W.view world.old) (W.view world.new) }
    ensures cause { IfErr result.1 (IsDiskCaused K.has_disk (W.view world.old).disk_faults (W.view world.new).disk_faults) }
{
    let StagedStore {
        store,
        staging,
        views,
    } = under;
    let (store, planned) = plan_keeping(alloc, store, &staging, world, command);
    let under = StagedStore {
        store,
        staging,
        views,
    };
    (under, planned)
}

/// Carries out a command of the store. Its reply is made before anything is changed, and nothing is changed where it has no room in the file or in the transaction.
pub(crate) fn stage<W: Outside, K: NodeReader<W>>(
    alloc: Global,
    under: StagedStore<K>,
    world: &mut W,
    command: &Command,
) -> (StagedStore<K>, Result<Spoken, StoreStop>)
    ensures stages { (base : Nodes) (tidy : Bool) (U : Underway) → K.holds under.store.store.keeper (W.view world.old) base → IsUnderway base (K.room under.store.store.keeper) under tidy U
        → Stages (K.room under.store.store.keeper) U command.now (IsUnderway base (K.room under.store.store.keeper) result.0 tidy) result.1 }
    ensures stays { (base : Nodes) (tidy : Bool) (U : Underway) → K.holds under.store.store.keeper (W.view world.old) base → IsUnderway base (K.room under.store.store.keeper) under tidy U
        → Keeps (K.holds under.store.store.keeper (W.view world.old)) (K.holds result.0.store.store.keeper (W.view world.new)) (K.pinned under.store.store.keeper (W.view world.old)) (K.pinned result.0.store.store.keeper (W.view world.new)) (K.last under.store.store.keeper) (K.last result.0.store.store.keeper) (K.room under.store.store.keeper) (K.room result.0.store.store.keeper) }
    ensures same { Untouched (W.view world.old) (W.view world.new) }
    ensures cause { IfErr result.1 (IsCaused K.has_disk (W.view world.old) (W.view world.new)) }
{
    let (under, planned) = plan_within(alloc, under, world, command);
    match planned {
        Ok(planned) => {
            let (under, spoken) = finish(alloc, under, planned);
            (under, Ok(spoken))
        }
        Err(stop) => (under, stopped(alloc, stop)),
    }
}
