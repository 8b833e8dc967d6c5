//! What a store within a transaction is asked: what a folder lists, what a line on the message in an attachment comes to, and what a command comes to.
ghost use Rattle.std.specs.Prelude.{◌≡◌, Bool, IfErr};
ghost use Rattle.pst_outside.specs.Calls.{Untouched};
ghost use Rattle.node_port.specs.Nodes.{Nodes};
ghost use Rattle.pinned_session.specs.mail_reading.Viewed.{listing_of, listing_view};
ghost use Rattle.mail_searches.specs.Searching.{Searching};
ghost use Rattle.mail_searches.specs.Step.{outcome};
ghost use Rattle.pinned_session.specs.mail_embedding.Meant.{Means};
ghost use Rattle.pinned_session.specs.pinned_views.Telling.{KeepsTold};
ghost use Rattle.pinned_session.specs.store_session.mail_draft.Answers.{IsCaused, Says};
ghost use Rattle.pinned_session.specs.store_session.mail_store.Planning.{SameKnown};
ghost use Rattle.pinned_session.specs.store_session.search_store.Planning.{PlansComing};
ghost use Rattle.staged_nodes.specs.Room.{room_beside};
ghost use Rattle.staged_nodes.specs.Staged.{Staged};
ghost use Rattle.staged_nodes.specs.declared.staging.Staging.{Staging as Changes};
ghost use Rattle.staged_store.specs.Planning.{PlansWithin};
ghost use Rattle.staged_store.specs.Standing.{HasOver};
ghost use Rattle.staged_store.specs.Telling.{Keeps};

use command_text::{Command, EmbeddedCommand};
use mail_searches::KnownSearches;
use mail_tree::Known;
use node_port::NodeReader;
use pinned_session::mail_embedding::{Meaning, mean};
use pinned_session::mail_reading::{Listing, list_rows};
use pinned_session::store_session::mail_draft::Stop;
use pinned_session::store_session::search_store::{PlannedSearch, SearchStore};
use pinned_session::store_session::{Store, plan_counted};
use pst_base::Nid;
use pst_outside::Outside;
use staged_nodes::{AroundStaged, StagedKeeper, StagedReady, Staging};
use std::alloc::Global;
use std::marker::{Brand, PhantomData};
use std::sync::ledger::Blank;

/// What a folder lists, by a keeper that is to hold and tell something, and that back.
fn list_under<P: AroundStaged, W: Outside, K: NodeReader<W>>(
    alloc: Global,
    keeper: K,
    staging: &Staging,
    world: &mut W,
    known: &Known,
    searches: &KnownSearches,
    folder: Nid,
) -> (K, Result<Listing, Stop>)
    requires held { (N : Nodes) → P.held N → K.holds keeper (W.view world.old) N }
    requires told { KeepsTold P.told (K.pinned keeper (W.view world.old)) }
    requires counted { K.last keeper ≡ P.last }
    requires staged { P.staged staging.now }
    requires are { (s : Changes) → P.staged s → s ≡ staging.now }
    ensures answer { (base : Nodes) (tidy : Bool) (F : Staged) (X : Searching) → P.held base → HasOver base (K.room keeper) staging.now known.now searches.now tidy F X → Says listing_view (listing_of X folder.bits) result.1 }
    ensures stays { (base : Nodes) (tidy : Bool) (F : Staged) (X : Searching) → P.held base → HasOver base (K.room keeper) staging.now known.now searches.now tidy F X
        → Keeps P.held (K.holds result.0 (W.view world.new)) P.told (K.pinned result.0 (W.view world.new)) P.last (K.last result.0) (K.room keeper) (K.room result.0) }
    ensures same { Untouched (W.view world.old) (W.view world.new) }
    ensures cause { IfErr result.1 (IsCaused K.has_disk (W.view world.old).disk_faults (W.view world.new).disk_faults) }
{
    let mut reader: StagedKeeper<'_, K, P> = StagedKeeper {
        keeper,
        staging,
        done: None,
        around: PhantomData,
    };
    let answer = list_rows(alloc, &mut reader, world, known, searches, folder);
    let StagedKeeper { keeper, .. } = reader;
    (keeper, answer)
}

/// What a folder lists, and the keeper back, which holds and tells what it did.
pub(crate) fn list_keeping<W: Outside, K: NodeReader<W>>(
    alloc: Global,
    keeper: K,
    staging: &Staging,
    world: &mut W,
    known: &Known,
    searches: &KnownSearches,
    folder: Nid,
) -> (K, Result<Listing, Stop>)
    ensures answer { (base : Nodes) (tidy : Bool) (F : Staged) (X : Searching) → K.holds keeper (W.view world.old) base → HasOver base (K.room keeper) staging.now known.now searches.now tidy F X → Says listing_view (listing_of X folder.bits) result.1 }
    ensures stays { (base : Nodes) (tidy : Bool) (F : Staged) (X : Searching) → K.holds keeper (W.view world.old) base → HasOver base (K.room keeper) staging.now known.now searches.now tidy F X
        → Keeps (K.holds keeper (W.view world.old)) (K.holds result.0 (W.view world.new)) (K.pinned keeper (W.view world.old)) (K.pinned result.0 (W.view world.new)) (K.last keeper) (K.last result.0) (K.room keeper) (K.room result.0) }
    ensures same { Untouched (W.view world.old) (W.view world.new) }
    ensures cause { IfErr result.1 (IsCaused K.has_disk (W.view world.old).disk_faults (W.view world.new).disk_faults) }
{
    list_under::<Brand, W, K>(alloc, keeper, staging, world, known, searches, folder)
}

/// What a line on the message in an attachment comes to, by a keeper that is to hold and tell something, and that back.
fn mean_under<P: AroundStaged, W: Outside, K: NodeReader<W>>(
    alloc: Global,
    keeper: K,
    staging: &Staging,
    world: &mut W,
    known: &Known,
    searches: &KnownSearches,
    line: &EmbeddedCommand,
) -> (K, Result<Meaning, Stop>)
    requires held { (N : Nodes) → P.held N → K.holds keeper (W.view world.old) N }
    requires told { KeepsTold P.told (K.pinned keeper (W.view world.old)) }
    requires counted { K.last keeper ≡ P.last }
    requires staged { P.staged staging.now }
    requires are { (s : Changes) → P.staged s → s ≡ staging.now }
    ensures answer { (base : Nodes) (tidy : Bool) (F : Staged) (X : Searching) → P.held base → HasOver base (K.room keeper) staging.now known.now searches.now tidy F X → Means X.tree line.now result.1 }
    ensures stays { (base : Nodes) (tidy : Bool) (F : Staged) (X : Searching) → P.held base → HasOver base (K.room keeper) staging.now known.now searches.now tidy F X
        → Keeps P.held (K.holds result.0 (W.view world.new)) P.told (K.pinned result.0 (W.view world.new)) P.last (K.last result.0) (K.room keeper) (K.room result.0) }
    ensures same { Untouched (W.view world.old) (W.view world.new) }
    ensures cause { IfErr result.1 (IsCaused K.has_disk (W.view world.old).disk_faults (W.view world.new).disk_faults) }
{
    // (what it comes to is no matter of the searches)
    let _searches = searches;
    let mut reader: StagedKeeper<'_, K, P> = StagedKeeper {
        keeper,
        staging,
        done: None,
        around: PhantomData,
    };
    let answer = mean(alloc, &mut reader, world, known, line);
    let StagedKeeper { keeper, .. } = reader;
    (keeper, answer)
}

/// What a line on the message in an attachment comes to, and the keeper back, which holds and tells what it did.
pub(crate) fn mean_keeping<W: Outside, K: NodeReader<W>>(
    alloc: Global,
    keeper: K,
    staging: &Staging,
    world: &mut W,
    known: &Known,
    searches: &KnownSearches,
    line: &EmbeddedCommand,
) -> (K, Result<Meaning, Stop>)
    ensures answer { (base : Nodes) (tidy : Bool) (F : Staged) (X : Searching) → K.holds keeper (W.view world.old) base → HasOver base (K.room keeper) staging.now known.now searches.now tidy F X → Means X.tree line.now result.1 }
    ensures stays { (base : Nodes) (tidy : Bool) (F : Staged) (X : Searching) → K.holds keeper (W.view world.old) base → HasOver base (K.room keeper) staging.now known.now searches.now tidy F X
        → Keeps (K.holds keeper (W.view world.old)) (K.holds result.0 (W.view world.new)) (K.pinned keeper (W.view world.old)) (K.pinned result.0 (W.view world.new)) (K.last keeper) (K.last result.0) (K.room keeper) (K.room result.0) }
    ensures same { Untouched (W.view world.old) (W.view world.new) }
    ensures cause { IfErr result.1 (IsCaused K.has_disk (W.view world.old).disk_faults (W.view world.new).disk_faults) }
{
    mean_under::<Brand, W, K>(alloc, keeper, staging, world, known, searches, line)
}

/// What a command comes to, and its changes beside those of the transaction, by a keeper that is to hold and tell something, and that back.
fn plan_under<P: AroundStaged, W: Outside, K: NodeReader<W>>(
    alloc: Global,
    store: SearchStore<K>,
    staging: &Staging,
    world: &mut W,
    command: &Command,
) -> (SearchStore<K>, Result<PlannedSearch<StagedReady>, Stop>)
    requires held { (N : Nodes) → P.held N → K.holds store.store.keeper (W.view world.old) N }
    requires told { KeepsTold P.told (K.pinned store.store.keeper (W.view world.old)) }
    requires counted { K.last store.store.keeper ≡ P.last }
    requires staged { P.staged staging.now }
    requires are { (s : Changes) → P.staged s → s ≡ staging.now }
    ensures answer { (base : Nodes) (tidy : Bool) (F : Staged) (X : Searching) → P.held base → HasOver base (K.room store.store.keeper) staging.now store.store.known store.searches tidy F X → PlansComing (room_beside staging.now.size (K.room store.store.keeper)) (PlansWithin staging.now X) (outcome X command.now) result.1 }
    ensures stays { (base : Nodes) (tidy : Bool) (F : Staged) (X : Searching) → P.held base → HasOver base (K.room store.store.keeper) staging.now store.store.known store.searches tidy F X
        → Keeps P.held (K.holds result.0.store.keeper (W.view world.new)) P.told (K.pinned result.0.store.keeper (W.view world.new)) P.last (K.last result.0.store.keeper) (K.room store.store.keeper) (K.room result.0.store.keeper) }
    ensures known { SameKnown store.store.known result.0.store.known × (result.0.searches ≡ store.searches) }
    ensures same { Untouched (W.view world.old) (W.view world.new) }
    ensures cause { IfErr result.1 (IsCaused K.has_disk (W.view world.old).disk_faults (W.view world.new).disk_faults) }
{
    let SearchStore {
        store: Store { keeper, known },
        searches,
    } = store;
    let keeper: StagedKeeper<'_, K, P> = StagedKeeper {
        keeper,
        staging,
        done: None,
        around: PhantomData,
    };
    let mut over = SearchStore {
        store: Store { keeper, known },
        searches,
    };
    let blank = Blank::new(1);
    let planned = plan_counted::<W, StagedKeeper<'_, K, P>, Brand>(
        alloc, &mut over, world, command, blank,
    );
    let SearchStore {
        store: Store { keeper, known },
        searches,
    } = over;
    let StagedKeeper { keeper, .. } = keeper;
    let store = SearchStore {
        store: Store { keeper, known },
        searches,
    };
    (store, planned)
}

/// What a command comes to, and its changes beside those of the transaction, and the store back, which holds and tells what it did.
pub(crate) fn plan_keeping<W: Outside, K: NodeReader<W>>(
    alloc: Global,
    store: SearchStore<K>,
    staging: &Staging,
    world: &mut W,
    command: &Command,
) -> (SearchStore<K>, Result<PlannedSearch<StagedReady>, Stop>)
    ensures answer { (base : Nodes) (tidy : Bool) (F : Staged) (X : Searching) → K.holds store.store.keeper (W.view world.old) base → HasOver base (K.room store.store.keeper) staging.now store.store.known store.searches tidy F X → PlansComing (room_beside staging.now.size (K.room store.store.keeper)) (PlansWithin staging.now X) (outcome X command.now) result.1 }
    ensures stays { (base : Nodes) (tidy : Bool) (F : Staged) (X : Searching) → K.holds store.store.keeper (W.view world.old) base → HasOver base (K.room store.store.keeper) staging.now store.store.known store.searches tidy F X
        → Keeps (K.holds store.store.keeper (W.view world.old)) (K.holds result.0.store.keeper (W.view world.new)) (K.pinned store.store.keeper (W.view world.old)) (K.pinned result.0.store.keeper (W.view world.new)) (K.last store.store.keeper) (K.last result.0.store.keeper) (K.room store.store.keeper) (K.room result.0.store.keeper) }
    ensures known { SameKnown store.store.known result.0.store.known × (result.0.searches ≡ store.searches) }
    ensures same { Untouched (W.view world.old) (W.view world.new) }
    ensures cause { IfErr result.1 (IsCaused K.has_disk (W.view world.old).disk_faults (W.view world.new).disk_faults) }
{
    plan_under::<Brand, W, K>(alloc, store, staging, world, command)
}
