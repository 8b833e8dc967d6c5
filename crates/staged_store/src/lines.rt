//! Lines within a transaction.
ghost use Rattle.std.specs.Prelude.{◌≡◌, Bool, IfErr};
ghost use Rattle.node_port.specs.Nodes.{Nodes};
ghost use Rattle.pst_outside.specs.Calls.{Untouched};
ghost use Rattle.pinned_session.specs.mail_embedding.Meant.{Means};
ghost use Rattle.pinned_session.specs.store_session.Carrying.{IsCaused};
ghost use Rattle.pinned_session.specs.store_session.Disks.{is_save};
ghost use Rattle.pinned_session.specs.store_session.mail_draft.Answers.{IsCaused as IsDiskCaused};
ghost use Rattle.session_lines.specs.declared.line.SessionLine.TheVariants.{Command as StoreCommand, Embedded};
ghost use Rattle.staged_store.specs.Saying.{Underway};
ghost use Rattle.staged_store.specs.Standing.{IsUnderway, Responds};
ghost use Rattle.staged_store.specs.Telling.{Keeps};

use crate::reading::mean_keeping;
use crate::staging::stage;
use crate::underway::StagedStore;
use crate::viewing::{open_view, show_view};
use command_text::{Command, CommandRefusal, EmbeddedCommand};
use line_server::Spoken;
use node_port::NodeReader;
use pinned_session::close_view;
use pinned_session::mail_embedding::Meaning;
use pinned_session::session_lines::SessionLine;
use pinned_session::store_session::mail_draft::Stop;
use pinned_session::store_session::search_store::SearchStore;
use pinned_session::store_session::{Store, StoreStop, refusal_spoken, reply_spoken, stopped};
use pst_outside::Outside;
use std::alloc::Global;

/// What a line on the message in an attachment comes to, and the store back.
fn mean<W: Outside, K: NodeReader<W>>(
    alloc: Global,
    under: StagedStore<K>,
    world: &mut W,
    line: &EmbeddedCommand,
) -> (StagedStore<K>, Result<Meaning, Stop>)
    ensures answer { (base : Nodes) (tidy : Bool) (U : Underway) → K.holds under.store.store.keeper (W.view world.old) base → IsUnderway base (K.room under.store.store.keeper) under tidy U → Means U.now.tree line.now result.1 }
    ensures underway { (base : Nodes) (tidy : Bool) (U : Underway) → K.holds under.store.store.keeper (W.view world.old) base → IsUnderway base (K.room under.store.store.keeper) under tidy U → IsUnderway base (K.room under.store.store.keeper) result.0 tidy U }
    ensures stays { (base : Nodes) (tidy : Bool) (U : Underway) → K.holds under.store.store.keeper (W.view world.old) base → IsUnderway base (K.room under.store.store.keeper) under tidy U
        → Keeps (K.holds under.store.store.keeper (W.view world.old)) (K.holds result.0.store.store.keeper (W.view world.new)) (K.pinned under.store.store.keeper (W.view world.old)) (K.pinned result.0.store.store.keeper (W.view world.new)) (K.last under.store.store.keeper) (K.last result.0.store.store.keeper) (K.room under.store.store.keeper) (K.room result.0.store.store.keeper) }
    ensures same { Untouched (W.view world.old) (W.view world.new) }
    ensures cause { IfErr result.1 (IsDiskCaused K.has_disk (W.view world.old).disk_faults (W.view world.new).disk_faults) }
{
    let StagedStore {
        store,
        staging,
        views,
    } = under;
    let SearchStore {
        store: Store { keeper, known },
        searches,
    } = store;
    let (keeper, answer) = mean_keeping(alloc, keeper, &staging, world, &known, &searches, line);
    let store = SearchStore {
        store: Store { keeper, known },
        searches,
    };
    let under = StagedStore {
        store,
        staging,
        views,
    };
    (under, answer)
}

/// Answers a line on the message in an attachment: by its reply, or by carrying out the command that it comes to.
fn answer_embedded<W: Outside, K: NodeReader<W>>(
    alloc: Global,
    under: StagedStore<K>,
    world: &mut W,
    line: &EmbeddedCommand,
) -> (StagedStore<K>, Result<Spoken, StoreStop>)
    ensures responds { (base : Nodes) (tidy : Bool) (U : Underway) → K.holds under.store.store.keeper (W.view world.old) base → IsUnderway base (K.room under.store.store.keeper) under tidy U
        → Responds (K.room under.store.store.keeper) U (Embedded line.now) (IsUnderway base (K.room under.store.store.keeper) result.0 tidy) result.1 }
    ensures stays { (base : Nodes) (tidy : Bool) (U : Underway) → K.holds under.store.store.keeper (W.view world.old) base → IsUnderway base (K.room under.store.store.keeper) under tidy U
        → Keeps (K.holds under.store.store.keeper (W.view world.old)) (K.holds result.0.store.store.keeper (W.view world.new)) (K.pinned under.store.store.keeper (W.view world.old)) (K.pinned result.0.store.store.keeper (W.view world.new)) (K.last under.store.store.keeper) (K.last result.0.store.store.keeper) (K.room under.store.store.keeper) (K.room result.0.store.store.keeper) }
    ensures same { Untouched (W.view world.old) (W.view world.new) }
    ensures cause { IfErr result.1 (IsCaused K.has_disk (W.view world.old) (W.view world.new)) }
{
    let (under, meaning) = mean(alloc, under, world, line);
    match meaning {
        Ok(Meaning::Replies(reply)) => (under, Ok(reply_spoken(alloc, &reply))),
        Ok(Meaning::Becomes(command)) => stage(alloc, under, world, &command),
        Err(stop) => (under, stopped(alloc, stop)),
    }
}

/// Whether a command is `save`.
fn is_save(command: &Command) -> bool
    ensures { result ≡ is_save command.now }
{
    matches!(command, Command::Save)
}

/// Carries out a command of the store; `save` is none within a transaction.
fn answer_command<W: Outside, K: NodeReader<W>>(
    alloc: Global,
    under: StagedStore<K>,
    world: &mut W,
    command: &Command,
) -> (StagedStore<K>, Result<Spoken, StoreStop>)
    ensures responds { (base : Nodes) (tidy : Bool) (U : Underway) → K.holds under.store.store.keeper (W.view world.old) base → IsUnderway base (K.room under.store.store.keeper) under tidy U
        → Responds (K.room under.store.store.keeper) U (StoreCommand command.now) (IsUnderway base (K.room under.store.store.keeper) result.0 tidy) result.1 }
    ensures stays { (base : Nodes) (tidy : Bool) (U : Underway) → K.holds under.store.store.keeper (W.view world.old) base → IsUnderway base (K.room under.store.store.keeper) under tidy U
        → Keeps (K.holds under.store.store.keeper (W.view world.old)) (K.holds result.0.store.store.keeper (W.view world.new)) (K.pinned under.store.store.keeper (W.view world.old)) (K.pinned result.0.store.store.keeper (W.view world.new)) (K.last under.store.store.keeper) (K.last result.0.store.store.keeper) (K.room under.store.store.keeper) (K.room result.0.store.store.keeper) }
    ensures same { Untouched (W.view world.old) (W.view world.new) }
    ensures cause { IfErr result.1 (IsCaused K.has_disk (W.view world.old) (W.view world.new)) }
{
    if is_save(command) {
        return (under, Ok(refusal_spoken(alloc, CommandRefusal::Line)));
    }
    stage(alloc, under, world, command)
}

/// Answers a line within a transaction. `save` and lines on pins are none there.
///
/// An `Err` comes where the disk failed, or something isn't as it was found before; the latter never of a store that has a tree.
pub fn answer_within<W: Outside, K: NodeReader<W>>(
    alloc: Global,
    under: StagedStore<K>,
    world: &mut W,
    asked: &SessionLine,
) -> (StagedStore<K>, Result<Spoken, StoreStop>)
    ensures responds { (base : Nodes) (tidy : Bool) (U : Underway) → K.holds under.store.store.keeper (W.view world.old) base → IsUnderway base (K.room under.store.store.keeper) under tidy U
        → Responds (K.room under.store.store.keeper) U asked.now (IsUnderway base (K.room under.store.store.keeper) result.0 tidy) result.1 }
    ensures stays { (base : Nodes) (tidy : Bool) (U : Underway) → K.holds under.store.store.keeper (W.view world.old) base → IsUnderway base (K.room under.store.store.keeper) under tidy U
        → Keeps (K.holds under.store.store.keeper (W.view world.old)) (K.holds result.0.store.store.keeper (W.view world.new)) (K.pinned under.store.store.keeper (W.view world.old)) (K.pinned result.0.store.store.keeper (W.view world.new)) (K.last under.store.store.keeper) (K.last result.0.store.store.keeper) (K.room under.store.store.keeper) (K.room result.0.store.store.keeper) }
    ensures same { Untouched (W.view world.old) (W.view world.new) }
    ensures cause { IfErr result.1 (IsCaused K.has_disk (W.view world.old) (W.view world.new)) }
{
    match asked {
        SessionLine::Command(command) => answer_command(alloc, under, world, command),
        SessionLine::Pin | SessionLine::At { .. } | SessionLine::Unpin { .. } => {
            (under, Ok(refusal_spoken(alloc, CommandRefusal::Line)))
        }
        SessionLine::OpenView {
            folder,
            tag,
            direction,
        } => open_view(alloc, under, world, *folder, *tag, *direction),
        SessionLine::ShowView { view, grouped } => show_view(alloc, under, world, *view, *grouped),
        SessionLine::CloseView { view } => {
            let mut under = under;
            let spoken = close_view(alloc, &mut under.views, *view);
            (under, Ok(spoken))
        }
        SessionLine::Embedded(line) => answer_embedded(alloc, under, world, line),
    }
}
