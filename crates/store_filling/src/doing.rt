//! One command, carried out.
ghost use Rattle.std.specs.Prelude.{◌≡◌, Bool, true, IfErr};
ghost use Rattle.line_server.specs.Worlds.{Quiet};
ghost use Rattle.mail_reading.specs.mail_draft.Answers.{IsCaused};
ghost use Rattle.mail_searches.specs.Searching.{Searching};
ghost use Rattle.store_session.specs.Carrying.{Has, StandsOrdered};
ghost use Rattle.store_session.specs.Disks.{effects_of};
ghost use Rattle.command_text.specs.declared.reply.Reply.{Reply as Replies};
ghost use Rattle.store_filling.specs.Doing.{CommandEnds};

use command_text::{Command, Reply};
use mail_reading::mail_draft::Stop;
use node_port::Saver;
use pst_outside::{Failed, Outside};
use std::alloc::Global;
use std::marker::Brand;
use std::sync::ledger::Blank;
use store_session::plan_counted;
use store_session::search_store::{SearchStore, commit};

/// Carries out a command by one commit, and gives its reply. A command that is refused, or for which there is no room, no number or no memory left, changes nothing. `Fault` comes where the disk failed; of the store nothing more is known then.
pub(crate) fn do_command<W: Outside, K: Saver<W>>(
    alloc: Global,
    store: &mut SearchStore<K>,
    w: &mut W,
    command: &Command,
) -> Result<Reply, Stop>
    ensures ends { (tidy : Bool) (X : Searching) → Has (K.holds store.old.store.keeper (W.view w.old)) (K.last store.old.store.keeper) store.old.store.known store.old.searches K.rests (W.view w.old) tidy X → (K.has_disk ≡ true → (W.view w.new).tells)
        → CommandEnds (effects_of (K.room store.old.store.keeper).pins K.measures K.applied K.saved) (StandsOrdered tidy (K.stands (K.room store.old.store.keeper).found)) (Has (K.holds store.new.store.keeper (W.view w.new)) (K.last store.new.store.keeper) store.new.store.known store.new.searches K.rests (W.view w.new) tidy) (λ (reply : Replies) turn. turn.reply ≡ reply) command.now X (W.view w.old) (W.view w.new) result }
    ensures found { (K.room store.new.store.keeper).found ≡ (K.room store.old.store.keeper).found }
    ensures pins { (K.room store.new.store.keeper).pins ≡ (K.room store.old.store.keeper).pins }
    ensures cause { IfErr result (IsCaused K.has_disk (W.view w.old).disk_faults (W.view w.new).disk_faults) }
    ensures quiet { Quiet (W.view w.old) (W.view w.new) }
{
    let blank = Blank::new(1);
    let planned = match plan_counted::<W, K, Brand>(alloc, store, w, command, blank) {
        Ok(planned) => planned,
        Err(stop) => return Err(stop),
    };
    match commit(store, w, planned) {
        Ok(reply) => Ok(reply),
        Err(Failed) => Err(Stop::Fault),
    }
}
