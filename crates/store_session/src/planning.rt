//! Plans of commands, each with a count of its steps of its own.
ghost use Rattle.std.specs.Prelude.{◌≡◌, ℕ, List, Option, IfErr, IfOk};
ghost use Rattle.std.specs.Option.{ForSome};
ghost use Rattle.pst_base.specs.declared.ids.Nid.{Nid as Id};
ghost use Rattle.node_port.specs.declared.node.NodeRec.{NodeRec as Rec};
ghost use Rattle.search_store.specs.mail_draft.Answers.{IsCaused, Looks};
ghost use Rattle.search_store.specs.mail_store.Planning.{PlansTo, SameKnown};
ghost use Rattle.mail_searches.specs.Searching.{Searching};
ghost use Rattle.mail_searches.specs.Step.{outcome};
ghost use Rattle.search_store.specs.search_folders.Comings.{new_or_old};
ghost use Rattle.search_store.specs.Planning.{PlansComing, StoresSearches};

use command_text::Command;
use node_port::Keeper;
use pst_base::{Ledger, Steps};
use pst_outside::Outside;
use search_store::mail_draft::Stop;
use search_store::{PlannedSearch, SearchStore, plan};
use std::alloc::Global;
use std::sync::ledger::Blank;

/// Plans a command, with a count of its steps of its own.
pub fn plan_counted<W: Outside, K: Keeper<W>, L: Ledger>(
    alloc: Global,
    store: &mut SearchStore<K>,
    w: &mut W,
    command: &Command,
    blank: Blank,
) -> Result<PlannedSearch<K::Ready>, Stop>
    requires name { blank.name ≡ L.name }
    requires parts { blank.parts ≡ L.parts }
    requires some { blank.parts ≡ 1 }
    ensures answer { (X : Searching) → StoresSearches (K.holds store.old.store.keeper (W.view w.old)) (K.last store.old.store.keeper) store.old.store.known store.old.searches X
        → PlansComing (K.room store.old.store.keeper) (λ o planned. PlansTo (K.fits store.new.store.keeper (W.view w.new)) X.tree o.outcome planned.tree.change planned.tree.places planned.tree.flags.items planned.tree.reply
        × (o.own ≡ new_or_old X.own planned.own) × (o.searches ≡ new_or_old X.searches planned.searches)) (outcome X command.now) result }
    ensures fits { IfOk result (λ planned. ForSome planned.tree.change (λ ready. (after : List ℕ) × (cs : List (Id × Option Rec)) × K.fits store.new.store.keeper (W.view w.new) ready after cs)) }
    ensures known { SameKnown store.old.store.known store.new.store.known × (store.new.searches ≡ store.old.searches) }
    ensures looks { Looks (K.holds store.old.store.keeper (W.view w.old)) (K.holds store.new.store.keeper (W.view w.new)) (K.last store.old.store.keeper) (K.last store.new.store.keeper) (K.room store.old.store.keeper) (K.room store.new.store.keeper) (W.view w.old) (W.view w.new) }
    ensures cause { IfErr result (IsCaused K.has_disk (W.view w.old).disk_faults (W.view w.new).disk_faults) }
{
    let (book, share) = blank.open::<L>();
    let mut steps = Steps::new(book, share);
    plan(alloc, store, w, command, &mut steps)
}
