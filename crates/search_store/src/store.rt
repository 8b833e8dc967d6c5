//! The store over a keeper, with its searches.
ghost use Rattle.std.specs.Prelude.{◌≡◌, ◌⊎◌, ◌≤◌, ◌+◌, ℕ, List, Option, Ok, true, IfErr, IfOk, OnErr, OnOk};
ghost use Rattle.std.specs.Option.{ForSome};
ghost use Rattle.pst_base.specs.declared.ids.Nid.{Nid as Id};
ghost use Rattle.pst_outside.specs.Calls.{LeavesOnly, NeverFall, Rose, Settled};
ghost use Rattle.node_port.specs.declared.node.NodeRec.{NodeRec as Rec};
ghost use Rattle.mail_draft.specs.Answers.{IsCaused, Looks};
ghost use Rattle.mail_store.specs.Planning.{Alters, PlansTo, SameKnown, StandsFor, cost_of};
ghost use Rattle.mail_searches.specs.Criteria.{Coming as Comings};
ghost use Rattle.mail_searches.specs.Asking.{work_of};
ghost use Rattle.mail_searches.specs.Relisting.{Touch, around};
ghost use Rattle.mail_searches.specs.Searching.{Searching};
ghost use Rattle.mail_searches.specs.Step.{after, outcome};
ghost use Rattle.mail_searches.specs.Touching.{touched};
ghost use Rattle.mail_tree.specs.Folders.{Outcome as Comes};
ghost use Rattle.mail_tree.specs.Step.{outcome as outcome_in_tree};
ghost use Rattle.search_folders.specs.Comings.{new_or_old};
ghost use Rattle.search_store.specs.Planning.{PlansComing, StoresSearches, follows};

use crate::entry::outcome;
use crate::planned::PlannedSearch;
use command_text::{Command, Reply};
use mail_draft::Stop;
use mail_searches::{KnownSearches, OwnFolders, Searches};
use mail_store::{Store, commit as commit_tree, plan_outcome, save as save_tree};
use node_port::{Keeper, Saver};
use pst_base::{Ledger, Steps};
use pst_outside::{Failed, Outside};
use search_folders::SearchOutcome;
use std::alloc::Global;

/// A store with its searches.
#[derive(Drop)]
pub struct SearchStore<K> {
    pub store: Store<K>,
    pub searches: KnownSearches,
}

/// Plans a command: what it answers, and what is to be changed for it. Nothing changes but the count of steps. Refused as the command is refused, and, where it writes, where the file has no room (`Full`) or no numbers (`Ids`) left.
pub fn plan<W: Outside, K: Keeper<W>, L: Ledger>(
    alloc: Global,
    store: &mut SearchStore<K>,
    w: &mut W,
    command: &Command,
    steps: &mut Steps<L>,
) -> Result<PlannedSearch<K::Ready>, Stop>
    ensures answer { (X : Searching) → StoresSearches (K.holds store.old.store.keeper (W.view w.old)) (K.last store.old.store.keeper) store.old.store.known store.old.searches X
        → PlansComing (K.room store.old.store.keeper) (λ o planned. PlansTo (K.fits store.new.store.keeper (W.view w.new)) X.tree o.outcome planned.tree.change planned.tree.places planned.tree.flags.items planned.tree.reply
        × (o.own ≡ new_or_old X.own planned.own) × (o.searches ≡ new_or_old X.searches planned.searches)) (outcome X command.now) result }
    ensures fits { IfOk result (λ planned. ForSome planned.tree.change (λ ready. (after : List ℕ) × (cs : List (Id × Option Rec)) × K.fits store.new.store.keeper (W.view w.new) ready after cs)) }
    ensures known { SameKnown store.old.store.known store.new.store.known × (store.new.searches ≡ store.old.searches) }
    ensures looks { Looks (K.holds store.old.store.keeper (W.view w.old)) (K.holds store.new.store.keeper (W.view w.new)) (K.last store.old.store.keeper) (K.last store.new.store.keeper) (K.room store.old.store.keeper) (K.room store.new.store.keeper) (W.view w.old) (W.view w.new) }
    ensures cause { IfErr result (IsCaused K.has_disk (W.view w.old).disk_faults (W.view w.new).disk_faults) }
    // Each running search asks its restriction of the messages that the command touches alone, as they were and as they are.
    ensures most { (X : Searching) (o : Comes) (ts : List Touch) → StoresSearches (K.holds store.old.store.keeper (W.view w.old)) (K.last store.old.store.keeper) store.old.store.known store.old.searches X
        → follows command.now ≡ true → outcome_in_tree X.tree command.now ≡ Ok o → touched X.tree command.now o ≡ Ok ts → steps.new ≤ steps.old + work_of (around X.tree o) ts X.searches }
{
    let SearchOutcome {
        outcome,
        own,
        searches,
    } = outcome(
        alloc,
        &mut store.store.keeper,
        w,
        &store.store.known,
        &store.searches,
        command,
        steps,
    )?;
    let tree = plan_outcome(alloc, &mut store.store, w, outcome)?;
    Ok(PlannedSearch {
        tree,
        own,
        searches,
    })
}

/// The searches after a command.
fn settle_searches(known: &mut KnownSearches, own: Option<OwnFolders>, searches: Option<Searches>)
    ensures own { known.new.own ≡ new_or_old known.old.own own }
    ensures searches { known.new.searches ≡ new_or_old known.old.searches searches }
{
    if let Some(own) = own {
        known.own = own;
    }
    if let Some(searches) = searches {
        known.searches = searches;
    }
}

/// Makes the changes of the latest plan, and gives its reply. It fails only where the disk failed. Takes no memory.
pub fn commit<W: Outside, K: Keeper<W>>(
    store: &mut SearchStore<K>,
    w: &mut W,
    planned: PlannedSearch<K::Ready>,
) -> Result<Reply, Failed>
    requires { ForSome planned.tree.change (λ ready. (after : List ℕ) × (cs : List (Id × Option Rec)) × K.fits store.old.store.keeper (W.view w.old) ready after cs) }
    ensures made { OnOk result ((X : Searching) (o : Comings) → StoresSearches (K.holds store.old.store.keeper (W.view w.old)) (K.last store.old.store.keeper) store.old.store.known store.old.searches X
        → PlansTo (K.fits store.old.store.keeper (W.view w.old)) X.tree o.outcome planned.tree.change planned.tree.places planned.tree.flags.items planned.tree.reply
        → o.own ≡ new_or_old X.own planned.own → o.searches ≡ new_or_old X.searches planned.searches
        → ((W.view w.old).tells → K.rests (W.view w.old).here) → (K.has_disk ≡ true → (W.view w.new).tells)
        → StoresSearches (K.holds store.new.store.keeper (W.view w.new)) (K.last store.new.store.keeper) store.new.store.known store.new.searches (after X o)) }
    ensures reply { IfOk result (λ reply. reply ≡ planned.tree.reply) }
    ensures cause { OnErr result (Rose (W.view w.old).disk_faults (W.view w.new).disk_faults × (K.has_disk ≡ true)) }
    ensures settled { Settled (W.view w.old) → OnOk result (Settled (W.view w.new)) }
    ensures rests { ((W.view w.old).tells → K.rests (W.view w.old).here) → OnOk result ((W.view w.new).tells → K.rests (W.view w.new).here) }
    // A crash at any moment leaves the tree from before or that after.
    ensures any_moment { (X : Searching) (o : Comings) → StoresSearches (K.holds store.old.store.keeper (W.view w.old)) (K.last store.old.store.keeper) store.old.store.known store.old.searches X
        → PlansTo (K.fits store.old.store.keeper (W.view w.old)) X.tree o.outcome planned.tree.change planned.tree.places planned.tree.flags.items planned.tree.reply
        → o.own ≡ new_or_old X.own planned.own → o.searches ≡ new_or_old X.searches planned.searches
        → Settled (W.view w.old) → ((W.view w.old).tells → K.rests (W.view w.old).here)
        → LeavesOnly (W.view w.old) (W.view w.new) (λ c. (c.said ≡ (W.view w.old).here.said) × (StandsFor (K.stands (K.room store.old.store.keeper).found c) X.tree ⊎ StandsFor (K.stands (K.room store.old.store.keeper).found c) (after X o).tree)) }
    ensures applied { OnOk result ((X : Searching) → StoresSearches (K.holds store.old.store.keeper (W.view w.old)) (K.last store.old.store.keeper) store.old.store.known store.old.searches X → ((W.view w.old).tells → K.rests (W.view w.old).here) → (W.view w.new).tells → Alters (K.fits store.old.store.keeper (W.view w.old)) (K.applied (K.room store.old.store.keeper).pins) K.cost planned.tree.change (W.view w.old).here (W.view w.new).here) }
    ensures found { (K.room store.new.store.keeper).found ≡ (K.room store.old.store.keeper).found }
    ensures pins { (K.room store.new.store.keeper).pins ≡ (K.room store.old.store.keeper).pins }
    ensures written { (W.view w.new).written ≤ (W.view w.old).written + cost_of K.cost planned.tree.change }
    ensures told { (W.view w.new).tells → (W.view w.old).tells }
    ensures input { (W.view w.new).tells → (W.view w.new).input ≡ (W.view w.old).input }
    ensures counts { NeverFall (W.view w.old) (W.view w.new) }
{
    let PlannedSearch {
        tree,
        own,
        searches,
    } = planned;
    let reply = commit_tree(&mut store.store, w, tree)?;
    settle_searches(&mut store.searches, own, searches);
    Ok(reply)
}

/// Saves what the keeper knows beside the nodes. The tree and its searches stay. It fails only where the disk failed. Takes no memory.
pub fn save<W: Outside, K: Saver<W>>(store: &mut SearchStore<K>, w: &mut W) -> Result<(), Failed>
    ensures same { OnOk result ((X : Searching) → StoresSearches (K.holds store.old.store.keeper (W.view w.old)) (K.last store.old.store.keeper) store.old.store.known store.old.searches X → ((W.view w.old).tells → K.rests (W.view w.old).here) → (K.has_disk ≡ true → (W.view w.new).tells)
        → StoresSearches (K.holds store.new.store.keeper (W.view w.new)) (K.last store.new.store.keeper) store.new.store.known store.new.searches X) }
    ensures searches { store.new.searches ≡ store.old.searches }
    ensures room { K.room store.new.store.keeper ≡ K.room store.old.store.keeper }
    ensures saved { OnOk result ((X : Searching) → StoresSearches (K.holds store.old.store.keeper (W.view w.old)) (K.last store.old.store.keeper) store.old.store.known store.old.searches X → ((W.view w.old).tells → K.rests (W.view w.old).here) → (W.view w.new).tells → K.saved (K.save_cost store.old.store.keeper) (W.view w.old).here (W.view w.new).here) }
    ensures settled { Settled (W.view w.old) → OnOk result (Settled (W.view w.new)) }
    ensures rests { ((W.view w.old).tells → K.rests (W.view w.old).here) → OnOk result ((W.view w.new).tells → K.rests (W.view w.new).here) }
    // A crash at any moment leaves the same tree.
    ensures any_moment { (X : Searching) → StoresSearches (K.holds store.old.store.keeper (W.view w.old)) (K.last store.old.store.keeper) store.old.store.known store.old.searches X → Settled (W.view w.old) → ((W.view w.old).tells → K.rests (W.view w.old).here)
        → LeavesOnly (W.view w.old) (W.view w.new) (λ c. (c.said ≡ (W.view w.old).here.said) × StandsFor (K.stands (K.room store.old.store.keeper).found c) X.tree) }
    ensures written { (W.view w.new).written ≤ (W.view w.old).written + K.save_cost store.old.store.keeper }
    ensures told { (W.view w.new).tells → (W.view w.old).tells }
    ensures input { (W.view w.new).tells → (W.view w.new).input ≡ (W.view w.old).input }
    ensures cause { OnErr result (Rose (W.view w.old).disk_faults (W.view w.new).disk_faults × (K.has_disk ≡ true)) }
    ensures counts { NeverFall (W.view w.old) (W.view w.new) }
{
    save_tree(&mut store.store, w)
}
