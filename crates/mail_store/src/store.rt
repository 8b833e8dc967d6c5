//! The store over a keeper.
ghost use Rattle.std.specs.Prelude.{◌≡◌, ◌⊎◌, ◌≤◌, ◌+◌, ℕ, List, Option, None, Ok, true, IfOk, IfErr, OnErr, OnOk};
ghost use Rattle.std.specs.Option.{ForSome};
ghost use Rattle.pst_base.specs.declared.ids.Nid.{Nid as Id};
ghost use Rattle.node_port.specs.declared.node.NodeRec.{NodeRec as Rec};
ghost use Rattle.pst_outside.specs.Calls.{NeverFall, Rose, Settled, LeavesOnly};
ghost use Rattle.mail_tree.specs.Step.{after};
ghost use Rattle.mail_tree.specs.Tree.{Shown, Tree};
ghost use Rattle.mail_tree.specs.Folders.{Outcome as Coming};
ghost use Rattle.mail_draft.specs.Answers.{IsCaused, Looks};
ghost use Rattle.mail_draft.specs.Drafts.{all_fit, changed_of};
ghost use Rattle.mail_draft.specs.Outcomes.{last_after, outcome_of};
ghost use Rattle.mail_store.specs.Planning.{Alters, Carries, ChangesNodes, cost_of, IsHindered, Plans, PlansTo, SameKnown, StandsFor, StaysUnwritten, Stores};
ghost use Rattle.mail_store.specs.Space.{HasCells, HasRoom, WritesNodes};

use crate::knowing::{plan_flags, settle_known};
use crate::planned::Planned;
use command_text::Reply;
use mail_draft::{Draft, Outcome, Stop, finish, space_needed};
use mail_tree::Known;
use node_port::{Changes, Counts, Keeper, Saver};
use pst_outside::{Failed, Outside};
use std::alloc::Global;

/// A store: what keeps its nodes, and what it knows of its tree beside them.
#[derive(Drop)]
pub struct Store<K> {
    pub keeper: K,
    pub known: Known,
}

/// The counters after a command.
fn counts_after<W: Outside, K: Keeper<W>>(_w: &W, keeper: &K, last: &Option<Counts>) -> Counts
    ensures { result.last ≡ last_after (K.last keeper.now) last.now }
{
    match last {
        Some(counts) => *counts,
        None => keeper.counts(),
    }
}

/// Plans the changes of a draft, of which there are some and all may be written.
fn plan_changes<W: Outside, K: Keeper<W>>(
    alloc: Global,
    keeper: &mut K,
    w: &mut W,
    draft: &Draft,
    last: &Option<Counts>,
) -> Result<K::Ready, Stop>
    requires fits { all_fit (changed_of draft.now) ≡ true }
    requires some { WritesNodes (changed_of draft.now) }
    ensures carries { IfOk result (λ ready. (T : Tree) (o : Coming) → Shown (K.holds keeper.old (W.view w.old)) (K.last keeper.old) T → o.changed ≡ changed_of draft.now → o.last ≡ last_after T.last last.now
        → Carries (K.fits keeper.new (W.view w.new)) T o (Option.Some ready)) }
    ensures fits { IfOk result (λ ready. (after : List ℕ) × (cs : List (Id × Option Rec)) × K.fits keeper.new (W.view w.new) ready after cs) }
    ensures room { OnOk result ((T : Tree) → Shown (K.holds keeper.old (W.view w.old)) (K.last keeper.old) T → HasCells (K.room keeper.old) (changed_of draft.now)) }
    ensures hindered { IfErr result (λ stop. (T : Tree) → Shown (K.holds keeper.old (W.view w.old)) (K.last keeper.old) T → IsHindered (K.room keeper.old) (changed_of draft.now) stop) }
    ensures looks { Looks (K.holds keeper.old (W.view w.old)) (K.holds keeper.new (W.view w.new)) (K.last keeper.old) (K.last keeper.new) (K.room keeper.old) (K.room keeper.new) (W.view w.old) (W.view w.new) }
    ensures cause { IfErr result (IsCaused K.has_disk (W.view w.old).disk_faults (W.view w.new).disk_faults) }
{
    let counts = counts_after(w, keeper, last);
    let nodes = finish(alloc, draft)?;
    let changes = Changes {
        nodes,
        counts,
        room: space_needed(draft),
    };
    Ok(keeper.prepare(alloc, w, changes)?)
}

/// Plans the changes of what a command comes to, if it writes anything.
fn plan_draft<W: Outside, K: Keeper<W>>(
    alloc: Global,
    keeper: &mut K,
    w: &mut W,
    outcome: &Outcome,
) -> Result<Option<K::Ready>, Stop>
    ensures carries { IfOk result (λ change. (T : Tree) → Shown (K.holds keeper.old (W.view w.old)) (K.last keeper.old) T → StaysUnwritten T (outcome_of T outcome.now) → Carries (K.fits keeper.new (W.view w.new)) T (outcome_of T outcome.now) change) }
    ensures fits { IfOk result (λ change. ForSome change (λ ready. (after : List ℕ) × (cs : List (Id × Option Rec)) × K.fits keeper.new (W.view w.new) ready after cs)) }
    ensures changes { IfOk result (ChangesNodes (changed_of outcome.now.draft)) }
    ensures room { OnOk result ((T : Tree) → Shown (K.holds keeper.old (W.view w.old)) (K.last keeper.old) T → HasRoom (K.room keeper.old) (changed_of outcome.now.draft)) }
    ensures hindered { IfErr result (λ stop. (T : Tree) → Shown (K.holds keeper.old (W.view w.old)) (K.last keeper.old) T → IsHindered (K.room keeper.old) (changed_of outcome.now.draft) stop) }
    ensures looks { Looks (K.holds keeper.old (W.view w.old)) (K.holds keeper.new (W.view w.new)) (K.last keeper.old) (K.last keeper.new) (K.room keeper.old) (K.room keeper.new) (W.view w.old) (W.view w.new) }
    ensures cause { IfErr result (IsCaused K.has_disk (W.view w.old).disk_faults (W.view w.new).disk_faults) }
{
    if outcome.draft.is_empty() {
        return Ok(None);
    }
    let ready = plan_changes(alloc, keeper, w, &outcome.draft, &outcome.last)?;
    Ok(Some(ready))
}

/// Plans what a command comes to, which was made of what the store knows and keeps: what is to be changed for it. Nothing changes. Refused only where it writes, and the file has no room (`Full`) or no numbers (`Ids`) left.
pub fn plan_outcome<W: Outside, K: Keeper<W>>(
    alloc: Global,
    store: &mut Store<K>,
    w: &mut W,
    outcome: Outcome,
) -> Result<Planned<K::Ready>, Stop>
    ensures answer { (T : Tree) → Stores (K.holds store.old.keeper (W.view w.old)) (K.last store.old.keeper) store.old.known T → StaysUnwritten T (outcome_of T outcome)
        → Plans (K.room store.old.keeper) (λ o planned. PlansTo (K.fits store.new.keeper (W.view w.new)) T o planned.change planned.places planned.flags.items planned.reply) (Ok (outcome_of T outcome)) result }
    ensures fits { IfOk result (λ planned. ForSome planned.change (λ ready. (after : List ℕ) × (cs : List (Id × Option Rec)) × K.fits store.new.keeper (W.view w.new) ready after cs)) }
    ensures known { SameKnown store.old.known store.new.known }
    ensures looks { Looks (K.holds store.old.keeper (W.view w.old)) (K.holds store.new.keeper (W.view w.new)) (K.last store.old.keeper) (K.last store.new.keeper) (K.room store.old.keeper) (K.room store.new.keeper) (W.view w.old) (W.view w.new) }
    ensures cause { IfErr result (IsCaused K.has_disk (W.view w.old).disk_faults (W.view w.new).disk_faults) }
{
    let flags = plan_flags(alloc, &mut store.known.flags, &outcome.draft)?;
    match plan_draft(alloc, &mut store.keeper, w, &outcome) {
        Ok(change) => Ok(Planned {
            change,
            places: outcome.places,
            flags,
            reply: outcome.reply,
        }),
        Err(stop) => Err(stop),
    }
}

/// Makes the changes that were planned, if any.
fn apply_change<W: Outside, K: Keeper<W>>(
    keeper: &mut K,
    w: &mut W,
    change: Option<K::Ready>,
) -> Result<(), Failed>
    requires { ForSome change (λ ready. (after : List ℕ) × (cs : List (Id × Option Rec)) × K.fits keeper.old (W.view w.old) ready after cs) }
    ensures made { OnOk result ((T : Tree) (o : Coming) → Shown (K.holds keeper.old (W.view w.old)) (K.last keeper.old) T → Carries (K.fits keeper.old (W.view w.old)) T o change → ((W.view w.old).tells → K.rests (W.view w.old).here) → (K.has_disk ≡ true → (W.view w.new).tells)
        → Shown (K.holds keeper.new (W.view w.new)) (K.last keeper.new) (after T o)) }
    ensures cause { OnErr result (Rose (W.view w.old).disk_faults (W.view w.new).disk_faults × (K.has_disk ≡ true)) }
    ensures settled { Settled (W.view w.old) → OnOk result (Settled (W.view w.new)) }
    ensures rests { ((W.view w.old).tells → K.rests (W.view w.old).here) → OnOk result ((W.view w.new).tells → K.rests (W.view w.new).here) }
    ensures any_moment { (T : Tree) (o : Coming) → Shown (K.holds keeper.old (W.view w.old)) (K.last keeper.old) T → Carries (K.fits keeper.old (W.view w.old)) T o change
        → Settled (W.view w.old) → ((W.view w.old).tells → K.rests (W.view w.old).here)
        → LeavesOnly (W.view w.old) (W.view w.new) (λ c. (c.said ≡ (W.view w.old).here.said) × (StandsFor (K.stands (K.room keeper.old).found c) T ⊎ StandsFor (K.stands (K.room keeper.old).found c) (after T o))) }
    ensures applied { OnOk result ((T : Tree) → Shown (K.holds keeper.old (W.view w.old)) (K.last keeper.old) T → ((W.view w.old).tells → K.rests (W.view w.old).here) → (W.view w.new).tells → Alters (K.fits keeper.old (W.view w.old)) (K.applied (K.room keeper.old).pins) K.cost change (W.view w.old).here (W.view w.new).here) }
    ensures found { (K.room keeper.new).found ≡ (K.room keeper.old).found }
    ensures pins { (K.room keeper.new).pins ≡ (K.room keeper.old).pins }
    ensures written { (W.view w.new).written ≤ (W.view w.old).written + cost_of K.cost change }
    ensures told { (W.view w.new).tells → (W.view w.old).tells }
    ensures input { (W.view w.new).tells → (W.view w.new).input ≡ (W.view w.old).input }
    ensures counts { NeverFall (W.view w.old) (W.view w.new) }
{
    match change {
        Some(ready) => keeper.apply(w, ready),
        None => Ok(()),
    }
}

/// Makes the changes of the latest plan, and gives its reply. It fails only where the disk failed. Takes no memory.
pub fn commit<W: Outside, K: Keeper<W>>(
    store: &mut Store<K>,
    w: &mut W,
    planned: Planned<K::Ready>,
) -> Result<Reply, Failed>
    requires { ForSome planned.change (λ ready. (after : List ℕ) × (cs : List (Id × Option Rec)) × K.fits store.old.keeper (W.view w.old) ready after cs) }
    ensures made { OnOk result ((T : Tree) (o : Coming) → Stores (K.holds store.old.keeper (W.view w.old)) (K.last store.old.keeper) store.old.known T
        → PlansTo (K.fits store.old.keeper (W.view w.old)) T o planned.change planned.places planned.flags.items planned.reply → ((W.view w.old).tells → K.rests (W.view w.old).here) → (K.has_disk ≡ true → (W.view w.new).tells)
        → Stores (K.holds store.new.keeper (W.view w.new)) (K.last store.new.keeper) store.new.known (after T o)) }
    ensures reply { IfOk result (λ reply. reply ≡ planned.reply) }
    ensures cause { OnErr result (Rose (W.view w.old).disk_faults (W.view w.new).disk_faults × (K.has_disk ≡ true)) }
    ensures settled { Settled (W.view w.old) → OnOk result (Settled (W.view w.new)) }
    ensures rests { ((W.view w.old).tells → K.rests (W.view w.old).here) → OnOk result ((W.view w.new).tells → K.rests (W.view w.new).here) }
    // A crash at any moment leaves the tree from before or that after.
    ensures any_moment { (T : Tree) (o : Coming) → Stores (K.holds store.old.keeper (W.view w.old)) (K.last store.old.keeper) store.old.known T → PlansTo (K.fits store.old.keeper (W.view w.old)) T o planned.change planned.places planned.flags.items planned.reply
        → Settled (W.view w.old) → ((W.view w.old).tells → K.rests (W.view w.old).here)
        → LeavesOnly (W.view w.old) (W.view w.new) (λ c. (c.said ≡ (W.view w.old).here.said) × (StandsFor (K.stands (K.room store.old.keeper).found c) T ⊎ StandsFor (K.stands (K.room store.old.keeper).found c) (after T o))) }
    ensures applied { OnOk result ((T : Tree) → Stores (K.holds store.old.keeper (W.view w.old)) (K.last store.old.keeper) store.old.known T → ((W.view w.old).tells → K.rests (W.view w.old).here) → (W.view w.new).tells → Alters (K.fits store.old.keeper (W.view w.old)) (K.applied (K.room store.old.keeper).pins) K.cost planned.change (W.view w.old).here (W.view w.new).here) }
    ensures found { (K.room store.new.keeper).found ≡ (K.room store.old.keeper).found }
    ensures pins { (K.room store.new.keeper).pins ≡ (K.room store.old.keeper).pins }
    ensures written { (W.view w.new).written ≤ (W.view w.old).written + cost_of K.cost planned.change }
    ensures told { (W.view w.new).tells → (W.view w.old).tells }
    ensures input { (W.view w.new).tells → (W.view w.new).input ≡ (W.view w.old).input }
    ensures counts { NeverFall (W.view w.old) (W.view w.new) }
{
    let Planned {
        change,
        places,
        flags,
        reply,
    } = planned;
    apply_change(&mut store.keeper, w, change)?;
    settle_known(&mut store.known, places, flags);
    Ok(reply)
}

/// Saves what the keeper knows beside the nodes. The tree stays. It fails only where the disk failed. Takes no memory.
pub fn save<W: Outside, K: Saver<W>>(store: &mut Store<K>, w: &mut W) -> Result<(), Failed>
    ensures same { OnOk result ((T : Tree) → Stores (K.holds store.old.keeper (W.view w.old)) (K.last store.old.keeper) store.old.known T → ((W.view w.old).tells → K.rests (W.view w.old).here) → (K.has_disk ≡ true → (W.view w.new).tells)
        → Stores (K.holds store.new.keeper (W.view w.new)) (K.last store.new.keeper) store.new.known T) }
    ensures room { K.room store.new.keeper ≡ K.room store.old.keeper }
    ensures saved { OnOk result ((T : Tree) → Stores (K.holds store.old.keeper (W.view w.old)) (K.last store.old.keeper) store.old.known T → ((W.view w.old).tells → K.rests (W.view w.old).here) → (W.view w.new).tells → K.saved (K.save_cost store.old.keeper) (W.view w.old).here (W.view w.new).here) }
    ensures settled { Settled (W.view w.old) → OnOk result (Settled (W.view w.new)) }
    ensures rests { ((W.view w.old).tells → K.rests (W.view w.old).here) → OnOk result ((W.view w.new).tells → K.rests (W.view w.new).here) }
    // A crash at any moment leaves the same tree.
    ensures any_moment { (T : Tree) → Stores (K.holds store.old.keeper (W.view w.old)) (K.last store.old.keeper) store.old.known T → Settled (W.view w.old) → ((W.view w.old).tells → K.rests (W.view w.old).here)
        → LeavesOnly (W.view w.old) (W.view w.new) (λ c. (c.said ≡ (W.view w.old).here.said) × StandsFor (K.stands (K.room store.old.keeper).found c) T) }
    ensures written { (W.view w.new).written ≤ (W.view w.old).written + K.save_cost store.old.keeper }
    ensures told { (W.view w.new).tells → (W.view w.old).tells }
    ensures input { (W.view w.new).tells → (W.view w.new).input ≡ (W.view w.old).input }
    ensures cause { OnErr result (Rose (W.view w.old).disk_faults (W.view w.new).disk_faults × (K.has_disk ≡ true)) }
    ensures counts { NeverFall (W.view w.old) (W.view w.new) }
{
    store.keeper.save(w)
}
