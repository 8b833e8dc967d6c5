//! All commands, and what is counted behind them.
ghost use Rattle.std.specs.Prelude.{◌≡◌, Bool, true, IfErr};
ghost use Rattle.line_server.specs.Worlds.{Quiet};
ghost use Rattle.mail_reading.specs.mail_draft.Answers.{IsCaused};
ghost use Rattle.mail_searches.specs.Searching.{Searching};
ghost use Rattle.store_session.specs.Carrying.{Has, StandsOrdered};
ghost use Rattle.store_session.specs.Disks.{effects_of};
ghost use Rattle.store_filling.specs.Commands.{fill_command, made_after, nothing_made};
ghost use Rattle.store_filling.specs.Doing.{AllEnd, CommandEnds};
ghost use Rattle.store_filling.specs.Filling.{FillsStore};

use crate::commands::{Made, command_at, made_after};
use crate::counting::{FillCounts, count_filled};
use crate::doing::do_command;
use crate::places::{FillPlaces, fill_places};
use mail_reading::mail_draft::Stop;
use node_port::Saver;
use pst_base::Nid;
use pst_outside::Outside;
use std::alloc::{AllocError, Global};
use store_session::search_store::SearchStore;

/// Nothing was made yet.
fn nothing_made() -> Made
    ensures { result ≡ nothing_made }
{
    let none = Nid { bits: 0 };
    Made {
        folder: none,
        search: none,
    }
}

/// Carries out the command at a place, and gives what was made after it.
fn do_next<W: Outside, K: Saver<W>>(
    alloc: Global,
    store: &mut SearchStore<K>,
    w: &mut W,
    places: FillPlaces,
    seed: u32,
    place: u32,
    made: Made,
) -> Result<Made, Stop>
    ensures ends { (tidy : Bool) (X : Searching) → Has (K.holds store.old.store.keeper (W.view w.old)) (K.last store.old.store.keeper) store.old.store.known store.old.searches K.rests (W.view w.old) tidy X → (K.has_disk ≡ true → (W.view w.new).tells)
        → CommandEnds (effects_of (K.room store.old.store.keeper).pins K.measures K.applied K.saved) (StandsOrdered tidy (K.stands (K.room store.old.store.keeper).found)) (Has (K.holds store.new.store.keeper (W.view w.new)) (K.last store.new.store.keeper) store.new.store.known store.new.searches K.rests (W.view w.new) tidy)
        (λ (next : Made) turn. next ≡ made_after place turn.reply made) (fill_command places seed place made) X (W.view w.old) (W.view w.new) result }
    ensures found { (K.room store.new.store.keeper).found ≡ (K.room store.old.store.keeper).found }
    ensures pins { (K.room store.new.store.keeper).pins ≡ (K.room store.old.store.keeper).pins }
    ensures cause { IfErr result (IsCaused K.has_disk (W.view w.old).disk_faults (W.view w.new).disk_faults) }
    ensures quiet { Quiet (W.view w.old) (W.view w.new) }
{
    let command = match command_at(alloc, places, seed, place, made) {
        Ok(command) => command,
        Err(AllocError) => return Err(Stop::Memory),
    };
    match do_command(alloc, store, w, &command) {
        Ok(reply) => Ok(made_after(place, &reply, made)),
        Err(stop) => Err(stop),
    }
}

/// Carries out all commands, and gives what the first of them made.
fn do_all<W: Outside, K: Saver<W>>(
    alloc: Global,
    store: &mut SearchStore<K>,
    w: &mut W,
    places: FillPlaces,
    seed: u32,
    count: u16,
) -> Result<Made, Stop>
    ensures ends { (tidy : Bool) (X : Searching) → Has (K.holds store.old.store.keeper (W.view w.old)) (K.last store.old.store.keeper) store.old.store.known store.old.searches K.rests (W.view w.old) tidy X → (K.has_disk ≡ true → (W.view w.new).tells)
        → AllEnd (effects_of (K.room store.old.store.keeper).pins K.measures K.applied K.saved) (StandsOrdered tidy (K.stands (K.room store.old.store.keeper).found)) (Has (K.holds store.new.store.keeper (W.view w.new)) (K.last store.new.store.keeper) store.new.store.known store.new.searches K.rests (W.view w.new) tidy)
        places seed count X (W.view w.old) (W.view w.new) result }
    ensures found { (K.room store.new.store.keeper).found ≡ (K.room store.old.store.keeper).found }
    ensures pins { (K.room store.new.store.keeper).pins ≡ (K.room store.old.store.keeper).pins }
    ensures cause { IfErr result (IsCaused K.has_disk (W.view w.old).disk_faults (W.view w.new).disk_faults) }
    ensures quiet { Quiet (W.view w.old) (W.view w.new) }
{
    let commands = u32::from(count) + 3;
    let mut made = nothing_made();
    for place in 0..commands {
        made = match do_next(alloc, store, w, places, seed, place, made) {
            Ok(next) => next,
            Err(stop) => return Err(stop),
        };
    }
    Ok(made)
}

/// Makes a large input over a store: the folder `Fill SEED`, the search `Find SEED` over it, and `count` messages in the folder, each by one commit, and counts at the end the messages that the search lists and the sizes of those in the folder.
///
/// Where it stops, what was made before stays: `Refused` where a command is refused or the file has no room or no number left for it, `Fault` where the disk failed, after which nothing more is known of the store, and `Memory` where there was no memory. `Changed` never comes of a store that has a tree. A stop at any moment leaves a disk that stands for the tree after some of the commands.
pub fn fill_store<W: Outside, K: Saver<W>>(
    alloc: Global,
    store: &mut SearchStore<K>,
    w: &mut W,
    seed: u32,
    count: u16,
) -> Result<FillCounts, Stop>
    ensures ends { (tidy : Bool) (X : Searching) → Has (K.holds store.old.store.keeper (W.view w.old)) (K.last store.old.store.keeper) store.old.store.known store.old.searches K.rests (W.view w.old) tidy X → (K.has_disk ≡ true → (W.view w.new).tells)
        → FillsStore (effects_of (K.room store.old.store.keeper).pins K.measures K.applied K.saved) (StandsOrdered tidy (K.stands (K.room store.old.store.keeper).found)) K.rests (W.view w.old) (W.view w.new) X seed count result }
    ensures cause { IfErr result (IsCaused K.has_disk (W.view w.old).disk_faults (W.view w.new).disk_faults) }
    ensures quiet { Quiet (W.view w.old) (W.view w.new) }
{
    let places = match fill_places(alloc, &mut store.store.keeper, w, &store.store.known) {
        Ok(places) => places,
        Err(stop) => return Err(stop),
    };
    let made = match do_all(alloc, store, w, places, seed, count) {
        Ok(made) => made,
        Err(stop) => return Err(stop),
    };
    count_filled(
        alloc,
        &mut store.store.keeper,
        w,
        &store.store.known,
        &store.searches,
        made,
    )
}
