//! Lines on messages in attachments.
ghost use Rattle.std.specs.Prelude.{◌≡◌, ℕ, Bool, List, true, IfErr};
ghost use Rattle.pst_outside.specs.Calls.{Untouched};
ghost use Rattle.line_server.specs.Worlds.{Quiet};
ghost use Rattle.mail_embedding.specs.Meant.{Means};
ghost use Rattle.mail_searches.specs.Searching.{Searching};
ghost use Rattle.pinned_views.specs.Telling.{KeepsTold};
ghost use Rattle.session_lines.specs.declared.line.SessionLine.TheVariants.{Embedded};
ghost use Rattle.store_session.specs.Carrying.{CarriesOut, Has, IsCaused};
ghost use Rattle.store_session.specs.Disks.{effects_of, medium};
ghost use Rattle.store_session.specs.mail_draft.Answers.{IsCaused as IsDiskCaused};
ghost use Rattle.pinned_session.specs.Run.{SaysTo};
ghost use Rattle.pinned_session.specs.Sits.{Sits, StandsNow};
ghost use Rattle.pinned_session.specs.Sitting.{Sitting};

use crate::lines::carry_command;
use crate::pins::PinnedStore;
use command_text::EmbeddedCommand;
use line_server::Spoken;
use mail_embedding::{Meaning, mean};
use node_port::{Pinner, Saver};
use pinned_views::{Around, UnderPins};
use pst_outside::Outside;
use std::alloc::Global;
use std::marker::{Brand, PhantomData};
use store_session::mail_draft::Stop;
use store_session::search_store::SearchStore;
use store_session::{Store, StoreStop, reply_spoken, stopped};

/// What a line on the message in an attachment comes to, by a keeper whose pins are to tell something, and the store back: its pins tell that still.
fn mean_under<P: Around, W: Outside, K: Saver<W>>(
    alloc: Global,
    store: SearchStore<K>,
    world: &mut W,
    line: &EmbeddedCommand,
) -> (SearchStore<K>, Result<Meaning, Stop>)
    requires told { KeepsTold P.told (K.pinned store.store.keeper (W.view world.old)) }
    ensures answer { (tidy : Bool) (X : Searching) → Has (K.holds store.store.keeper (W.view world.old)) (K.last store.store.keeper) store.store.known store.searches K.rests (W.view world.old) tidy X → Means X.tree line.now result.1 }
    ensures stays { (tidy : Bool) (X : Searching) → Has (K.holds store.store.keeper (W.view world.old)) (K.last store.store.keeper) store.store.known store.searches K.rests (W.view world.old) tidy X
        → Has (K.holds result.0.store.keeper (W.view world.new)) (K.last result.0.store.keeper) result.0.store.known result.0.searches K.rests (W.view world.new) tidy X × KeepsTold P.told (K.pinned result.0.store.keeper (W.view world.new)) }
    ensures room { K.room result.0.store.keeper ≡ K.room store.store.keeper }
    ensures same { Untouched (W.view world.old) (W.view world.new) }
    ensures cause { IfErr result.1 (IsDiskCaused K.has_disk (W.view world.old).disk_faults (W.view world.new).disk_faults) }
{
    let SearchStore {
        store: Store { keeper, known },
        searches,
    } = store;
    let mut under: UnderPins<K, P> = UnderPins {
        keeper,
        around: PhantomData,
    };
    let answer = mean(alloc, &mut under, world, &known, line);
    let UnderPins { keeper, .. } = under;
    let store = SearchStore {
        store: Store { keeper, known },
        searches,
    };
    (store, answer)
}

/// What a line on the message in an attachment comes to, and the store back. Each pin tells what it told.
fn mean_keeping<W: Outside, K: Saver<W>>(
    alloc: Global,
    store: SearchStore<K>,
    world: &mut W,
    line: &EmbeddedCommand,
) -> (SearchStore<K>, Result<Meaning, Stop>)
    ensures answer { (tidy : Bool) (X : Searching) → Has (K.holds store.store.keeper (W.view world.old)) (K.last store.store.keeper) store.store.known store.searches K.rests (W.view world.old) tidy X → Means X.tree line.now result.1 }
    ensures stays { (tidy : Bool) (X : Searching) → Has (K.holds store.store.keeper (W.view world.old)) (K.last store.store.keeper) store.store.known store.searches K.rests (W.view world.old) tidy X
        → Has (K.holds result.0.store.keeper (W.view world.new)) (K.last result.0.store.keeper) result.0.store.known result.0.searches K.rests (W.view world.new) tidy X × KeepsTold (K.pinned store.store.keeper (W.view world.old)) (K.pinned result.0.store.keeper (W.view world.new)) }
    ensures room { K.room result.0.store.keeper ≡ K.room store.store.keeper }
    ensures same { Untouched (W.view world.old) (W.view world.new) }
    ensures cause { IfErr result.1 (IsDiskCaused K.has_disk (W.view world.old).disk_faults (W.view world.new).disk_faults) }
{
    mean_under::<Brand, W, K>(alloc, store, world, line)
}

/// Answers a line on the message in an attachment: by its reply, or by carrying out the command that it comes to.
pub(crate) fn answer_embedded<W: Outside, K: Pinner<W> + Saver<W>>(
    alloc: Global,
    pinned: PinnedStore<K>,
    world: &mut W,
    line: &EmbeddedCommand,
) -> (PinnedStore<K>, Result<Spoken, StoreStop>)
    ensures carries { (found : List ℕ) (tidy : Bool) (S : Sitting) → Sits W.view K.holds K.last K.pinned K.room K.rests pinned world.old found tidy S → (K.has_disk ≡ true → (W.view world.new).tells)
        → CarriesOut (Sits W.view K.holds K.last K.pinned K.room K.rests result.0 world.new found tidy) (StandsNow K.stands found tidy) (SaysTo (λ pins. effects_of pins K.measures K.applied K.saved) (K.room pinned.store.store.keeper) S (medium (W.view world.old)) (Embedded line.now)) (W.view world.old) (W.view world.new) S result.1 }
    ensures cause { IfErr result.1 (IsCaused K.has_disk (W.view world.old) (W.view world.new)) }
    ensures quiet { Quiet (W.view world.old) (W.view world.new) }
{
    let PinnedStore {
        store,
        given,
        pins,
        views,
    } = pinned;
    let (store, answer) = mean_keeping(alloc, store, world, line);
    let pinned = PinnedStore {
        store,
        given,
        pins,
        views,
    };
    match answer {
        Ok(Meaning::Replies(reply)) => (pinned, Ok(reply_spoken(alloc, &reply))),
        Ok(Meaning::Becomes(command)) => carry_command(alloc, pinned, world, &command),
        Err(stop) => (pinned, stopped(alloc, stop)),
    }
}
