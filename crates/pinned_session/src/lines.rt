//! Lines answered.
ghost use Rattle.std.specs.Prelude.{◌≡◌, ℕ, Bool, List, Option, true, IfErr};
ghost use Rattle.command_text.specs.declared.command.Command.{Command};
ghost use Rattle.line_server.specs.Worlds.{Quiet};
ghost use Rattle.command_text.specs.Asking.{asks};
ghost use Rattle.session_lines.specs.declared.line.SessionLine.TheVariants.{At, Command as StoreCommand};
ghost use Rattle.store_session.specs.Carrying.{CarriesOut, IsCaused};
ghost use Rattle.store_session.specs.Disks.{effects_of, medium};
ghost use Rattle.pinned_session.specs.Run.{SaysTo};
ghost use Rattle.pinned_session.specs.Sits.{Sits, StandsNow};
ghost use Rattle.pinned_session.specs.Sitting.{Sitting};

use crate::asking::ask_keeping;
use crate::commands::carry_keeping;
use crate::embedding::answer_embedded;
use crate::pinning::{give_up, make_pin, pin_spoken};
use crate::pins::{PinnedStore, place_of};
use crate::viewing::{close_view, open_view, show_view};
use crate::views::close_views;
use command_text::Command;
use line_server::Spoken;
use node_port::{Pinner, Saver};
use pst_outside::Outside;
use session_lines::{PinReply, SessionLine};
use std::alloc::Global;
use store_session::search_store::SearchStore;
use store_session::{Store, StoreStop, reply_spoken, stopped};

/// Carries out a command of the store. Its pins tell what they told, and the views of a folder that is gone are closed.
pub(crate) fn carry_command<W: Outside, K: Pinner<W> + Saver<W>>(
    alloc: Global,
    pinned: PinnedStore<K>,
    world: &mut W,
    command: &Command,
) -> (PinnedStore<K>, Result<Spoken, StoreStop>)
    ensures carries { (found : List ℕ) (tidy : Bool) (S : Sitting) → Sits W.view K.holds K.last K.pinned K.room K.rests pinned world.old found tidy S → (K.has_disk ≡ true → (W.view world.new).tells)
        → CarriesOut (Sits W.view K.holds K.last K.pinned K.room K.rests result.0 world.new found tidy) (StandsNow K.stands found tidy) (SaysTo (λ pins. effects_of pins K.measures K.applied K.saved) (K.room pinned.store.store.keeper) S (medium (W.view world.old)) (StoreCommand command.now)) (W.view world.old) (W.view world.new) S result.1 }
    ensures cause { IfErr result.1 (IsCaused K.has_disk (W.view world.old) (W.view world.new)) }
    ensures quiet { Quiet (W.view world.old) (W.view world.new) }
{
    let PinnedStore {
        store,
        given,
        pins,
        mut views,
    } = pinned;
    let (store, answer) = carry_keeping(alloc, store, world, command);
    close_views(&mut views, &store.store.known.places);
    let pinned = PinnedStore {
        store,
        given,
        pins,
        views,
    };
    (pinned, answer)
}

/// Answers a command that only asks by the tree of the pin that a line names.
fn ask_pin<W: Outside, K: Pinner<W> + Saver<W>>(
    alloc: Global,
    pinned: PinnedStore<K>,
    world: &mut W,
    pin: Option<u32>,
    command: &Command,
) -> (PinnedStore<K>, Result<Spoken, StoreStop>)
    requires only { asks command.now ≡ true }
    ensures carries { (found : List ℕ) (tidy : Bool) (S : Sitting) → Sits W.view K.holds K.last K.pinned K.room K.rests pinned world.old found tidy S → (K.has_disk ≡ true → (W.view world.new).tells)
        → CarriesOut (Sits W.view K.holds K.last K.pinned K.room K.rests result.0 world.new found tidy) (StandsNow K.stands found tidy) (SaysTo (λ pins. effects_of pins K.measures K.applied K.saved) (K.room pinned.store.store.keeper) S (medium (W.view world.old)) (At pin command.now)) (W.view world.old) (W.view world.new) S result.1 }
    ensures cause { IfErr result.1 (IsCaused K.has_disk (W.view world.old) (W.view world.new)) }
    ensures quiet { Quiet (W.view world.old) (W.view world.new) }
{
    let Some(place) = place_of(pinned.pins.as_slice(), pin) else {
        return (pinned, Ok(pin_spoken(alloc, PinReply::NoPin)));
    };
    let PinnedStore {
        store,
        given,
        pins,
        views,
    } = pinned;
    let SearchStore {
        store: Store { keeper, known },
        searches,
    } = store;
    let (keeper, answer) = ask_keeping(alloc, keeper, world, &pins[place], command);
    let store = SearchStore {
        store: Store { keeper, known },
        searches,
    };
    let pinned = PinnedStore {
        store,
        given,
        pins,
        views,
    };
    match answer {
        Ok(coming) => (pinned, Ok(reply_spoken(alloc, &coming.outcome.reply))),
        Err(stop) => (pinned, stopped(alloc, stop)),
    }
}

/// Answers what a line asks for, and gives the store with its pins back. The reply is made before anything is changed, and says `no memory` where there was none; then nothing is changed.
///
/// An `Err` comes where the disk failed, or something isn't as it was found before; the latter never of a store that has a tree.
pub fn answer<W: Outside, K: Pinner<W> + Saver<W>>(
    alloc: Global,
    pinned: PinnedStore<K>,
    world: &mut W,
    asked: &SessionLine,
) -> (PinnedStore<K>, Result<Spoken, StoreStop>)
    requires read { (pin : Option ℕ) (c : Command) → asked.now ≡ At pin c → asks c ≡ true }
    ensures carries { (found : List ℕ) (tidy : Bool) (S : Sitting) → Sits W.view K.holds K.last K.pinned K.room K.rests pinned world.old found tidy S → (K.has_disk ≡ true → (W.view world.new).tells)
        → CarriesOut (Sits W.view K.holds K.last K.pinned K.room K.rests result.0 world.new found tidy) (StandsNow K.stands found tidy) (SaysTo (λ pins. effects_of pins K.measures K.applied K.saved) (K.room pinned.store.store.keeper) S (medium (W.view world.old)) asked.now) (W.view world.old) (W.view world.new) S result.1 }
    ensures cause { IfErr result.1 (IsCaused K.has_disk (W.view world.old) (W.view world.new)) }
    ensures quiet { Quiet (W.view world.old) (W.view world.new) }
{
    match asked {
        SessionLine::Command(command) => carry_command(alloc, pinned, world, command),
        SessionLine::Pin => {
            let mut pinned = pinned;
            let spoken = make_pin::<W, K>(alloc, &mut pinned);
            (pinned, Ok(spoken))
        }
        SessionLine::At { pin, command } => ask_pin(alloc, pinned, world, *pin, command),
        SessionLine::Unpin { pin } => {
            let mut pinned = pinned;
            let spoken = give_up::<W, K>(alloc, &mut pinned, *pin);
            (pinned, Ok(spoken))
        }
        SessionLine::OpenView {
            folder,
            tag,
            direction,
        } => open_view(alloc, pinned, world, *folder, *tag, *direction),
        SessionLine::ShowView { view, grouped } => {
            show_view(alloc, pinned, world, *view, *grouped)
        }
        SessionLine::CloseView { view } => {
            let mut pinned = pinned;
            let spoken = close_view(alloc, &mut pinned.views, *view);
            (pinned, Ok(spoken))
        }
        SessionLine::Embedded(line) => answer_embedded(alloc, pinned, world, line),
    }
}
