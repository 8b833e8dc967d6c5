//! Commands carried out over a store.
ghost use Rattle.std.specs.Prelude.{◌≡◌, ◌⊎◌, Bool, false, true, IfErr};
ghost use Rattle.command_text.specs.declared.command.Command.TheVariants.{Save};
ghost use Rattle.mail_searches.specs.Searching.{Searching};
ghost use Rattle.command_text.specs.Replies.{text};
ghost use Rattle.line_server.specs.Spoken.{no_memory_text, spoken_text};
ghost use Rattle.line_server.specs.Worlds.{Quiet};
ghost use Rattle.store_session.specs.Carrying.{CarriesOut, ComesTo, Has, IsCaused, SaysRefusal, StandsOrdered};
ghost use Rattle.store_session.specs.Disks.{effects_of, is_save, medium};
ghost use Rattle.store_session.specs.Run.{CommandAnswers};

use crate::planning::plan_counted;
use command_text::{Command, CommandRefusal, LastLine, Reply, reply_text};
use line_server::Spoken;
use node_port::Saver;
use pst_outside::Outside;
use search_store::mail_draft::Stop;
use search_store::{SearchStore, commit, save};
use std::alloc::{AllocError, Global};
use std::marker::Brand;
use std::sync::ledger::Blank;

/// Why a session over a store can't go on.
#[derive(Clone, Copy, Debug, PartialEq, Eq, Drop)]
pub enum StoreStop {
    /// The disk failed. Of the store nothing more is known until it is opened again.
    Disk,
    /// What stands at the offset `ib` isn't as it was found before: the two numbers that the check compared.
    Changed { ib: u64, stored: u64, computed: u64 },
}

/// What is said of a reply.
pub fn reply_spoken(alloc: Global, reply: &Reply) -> Spoken
    ensures { (spoken_text result ≡ text reply.now) ⊎ (spoken_text result ≡ no_memory_text) }
{
    match reply_text(alloc, reply) {
        Ok(text) => Spoken::Reply(text),
        Err(AllocError) => Spoken::NoMemory,
    }
}

/// What is said of a refusal.
pub fn refusal_spoken(alloc: Global, refusal: CommandRefusal) -> Spoken
    ensures { SaysRefusal refusal result }
{
    reply_spoken(
        alloc,
        &Reply::without_data(alloc, LastLine::Refused(refusal)),
    )
}

/// What a command that stopped comes to.
pub fn stopped(alloc: Global, stop: Stop) -> Result<Spoken, StoreStop>
    ensures { ComesTo stop result }
{
    match stop {
        Stop::Refused(refusal) => Ok(refusal_spoken(alloc, refusal)),
        Stop::Fault => Err(StoreStop::Disk),
        Stop::Changed {
            ib,
            stored,
            computed,
        } => Err(StoreStop::Changed {
            ib,
            stored,
            computed,
        }),
        Stop::Memory => Ok(Spoken::NoMemory),
    }
}

/// Carries out a command other than `save`; its reply is made before anything is changed.
fn carry_planned<W: Outside, K: Saver<W>>(
    alloc: Global,
    store: &mut SearchStore<K>,
    world: &mut W,
    command: &Command,
) -> Result<Spoken, StoreStop>
    requires other { is_save command.now ≡ false }
    ensures carries { (tidy : Bool) (X : Searching) → Has (K.holds store.old.store.keeper (W.view world.old)) (K.last store.old.store.keeper) store.old.store.known store.old.searches K.rests (W.view world.old) tidy X → (K.has_disk ≡ true → (W.view world.new).tells)
        → CarriesOut (Has (K.holds store.new.store.keeper (W.view world.new)) (K.last store.new.store.keeper) store.new.store.known store.new.searches K.rests (W.view world.new) tidy) (StandsOrdered tidy (K.stands (K.room store.old.store.keeper).found)) (λ told. CommandAnswers (effects_of (K.room store.old.store.keeper).pins K.measures K.applied K.saved) (K.room store.old.store.keeper) X (medium (W.view world.old)) told command.now) (W.view world.old) (W.view world.new) X result }
    ensures found { (K.room store.new.store.keeper).found ≡ (K.room store.old.store.keeper).found }
    ensures pins { (K.room store.new.store.keeper).pins ≡ (K.room store.old.store.keeper).pins }
    ensures cause { IfErr result (IsCaused K.has_disk (W.view world.old) (W.view world.new)) }
    ensures quiet { Quiet (W.view world.old) (W.view world.new) }
{
    let blank = Blank::new(1);
    let planned = match plan_counted::<W, K, Brand>(alloc, store, world, command, blank) {
        Ok(planned) => planned,
        Err(stop) => return stopped(alloc, stop),
    };
    let Ok(text) = reply_text(alloc, &planned.tree.reply) else {
        return Ok(Spoken::NoMemory);
    };
    match commit(store, world, planned) {
        Ok(_) => Ok(Spoken::Reply(text)),
        Err(_) => Err(StoreStop::Disk),
    }
}

/// Carries out `save`; its reply is made before anything is written.
fn carry_save<W: Outside, K: Saver<W>>(
    alloc: Global,
    store: &mut SearchStore<K>,
    world: &mut W,
) -> Result<Spoken, StoreStop>
    ensures carries { (tidy : Bool) (X : Searching) → Has (K.holds store.old.store.keeper (W.view world.old)) (K.last store.old.store.keeper) store.old.store.known store.old.searches K.rests (W.view world.old) tidy X → (K.has_disk ≡ true → (W.view world.new).tells)
        → CarriesOut (Has (K.holds store.new.store.keeper (W.view world.new)) (K.last store.new.store.keeper) store.new.store.known store.new.searches K.rests (W.view world.new) tidy) (StandsOrdered tidy (K.stands (K.room store.old.store.keeper).found)) (λ told. CommandAnswers (effects_of (K.room store.old.store.keeper).pins K.measures K.applied K.saved) (K.room store.old.store.keeper) X (medium (W.view world.old)) told Save) (W.view world.old) (W.view world.new) X result }
    ensures found { (K.room store.new.store.keeper).found ≡ (K.room store.old.store.keeper).found }
    ensures pins { (K.room store.new.store.keeper).pins ≡ (K.room store.old.store.keeper).pins }
    ensures cause { IfErr result (IsCaused K.has_disk (W.view world.old) (W.view world.new)) }
    ensures quiet { Quiet (W.view world.old) (W.view world.new) }
{
    let Ok(text) = reply_text(alloc, &Reply::without_data(alloc, LastLine::Done)) else {
        return Ok(Spoken::NoMemory);
    };
    match save(store, world) {
        Ok(()) => Ok(Spoken::Reply(text)),
        Err(_) => Err(StoreStop::Disk),
    }
}

/// Carries out a command. The reply is made before anything is changed, and says `no memory` where there was none; then nothing is changed.
///
/// An `Err` comes where the disk failed, or something isn't as it was found before; the latter never of a store that has a tree.
pub fn carry_out<W: Outside, K: Saver<W>>(
    alloc: Global,
    store: &mut SearchStore<K>,
    world: &mut W,
    command: &Command,
) -> Result<Spoken, StoreStop>
    ensures carries { (tidy : Bool) (X : Searching) → Has (K.holds store.old.store.keeper (W.view world.old)) (K.last store.old.store.keeper) store.old.store.known store.old.searches K.rests (W.view world.old) tidy X → (K.has_disk ≡ true → (W.view world.new).tells)
        → CarriesOut (Has (K.holds store.new.store.keeper (W.view world.new)) (K.last store.new.store.keeper) store.new.store.known store.new.searches K.rests (W.view world.new) tidy) (StandsOrdered tidy (K.stands (K.room store.old.store.keeper).found)) (λ told. CommandAnswers (effects_of (K.room store.old.store.keeper).pins K.measures K.applied K.saved) (K.room store.old.store.keeper) X (medium (W.view world.old)) told command.now) (W.view world.old) (W.view world.new) X result }
    ensures found { (K.room store.new.store.keeper).found ≡ (K.room store.old.store.keeper).found }
    ensures pins { (K.room store.new.store.keeper).pins ≡ (K.room store.old.store.keeper).pins }
    ensures cause { IfErr result (IsCaused K.has_disk (W.view world.old) (W.view world.new)) }
    ensures quiet { Quiet (W.view world.old) (W.view world.new) }
{
    match command {
        Command::Save => carry_save(alloc, store, world),
        _ => carry_planned(alloc, store, world, command),
    }
}
