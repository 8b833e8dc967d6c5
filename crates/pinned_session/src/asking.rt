//! Commands that only ask, by what a pin tells.
ghost use Rattle.std.specs.Prelude.{◌≡◌, IfErr};
ghost use Rattle.pst_outside.specs.Calls.{Untouched};
ghost use Rattle.node_port.specs.Nodes.{Nodes};
ghost use Rattle.store_session.specs.mail_draft.Answers.{IsCaused, Says};
ghost use Rattle.mail_reading.specs.Asked.{asked};
ghost use Rattle.mail_searches.specs.Searching.{Searching};
ghost use Rattle.pinned_views.specs.Telling.{KeepsTold};
ghost use Rattle.mail_reading.specs.search_folders.Comings.{comes_to};
ghost use Rattle.pinned_session.specs.Holding.{TellsTree};

use crate::pins::PinView;
use command_text::Command;
use mail_reading::ask;
use mail_reading::search_folders::SearchOutcome;
use node_port::Pinner;
use pinned_views::{Around, PinReader};
use pst_outside::Outside;
use std::alloc::Global;
use std::marker::{Brand, PhantomData};
use store_session::mail_draft::Stop;

/// Asks a pin of a keeper that is to hold and to tell something, and gives the keeper back: it holds and tells that still.
fn ask_under<P: Around, W: Outside, K: Pinner<W>>(
    alloc: Global,
    keeper: K,
    world: &mut W,
    view: &PinView,
    command: &Command,
) -> (K, Result<SearchOutcome, Stop>)
    requires held { (N : Nodes) → P.held N → K.holds keeper (W.view world.old) N }
    requires told { KeepsTold P.told (K.pinned keeper (W.view world.old)) }
    requires counted { K.last keeper ≡ P.last }
    ensures answer { (N : Nodes) (X : Searching) → K.holds keeper (W.view world.old) N → TellsTree (K.pinned keeper (W.view world.old) view.now.number) view.now.counts.last view.now.known view.now.searches X → Says (comes_to X) (asked X command.now) result.1 }
    ensures stays { (N : Nodes) (X : Searching) → K.holds keeper (W.view world.old) N → TellsTree (K.pinned keeper (W.view world.old) view.now.number) view.now.counts.last view.now.known view.now.searches X
        → ((M : Nodes) → P.held M → K.holds result.0 (W.view world.new) M) × KeepsTold P.told (K.pinned result.0 (W.view world.new)) × (K.last result.0 ≡ P.last) }
    ensures room { K.room result.0 ≡ K.room keeper }
    ensures same { Untouched (W.view world.old) (W.view world.new) }
    ensures cause { IfErr result.1 (IsCaused K.has_disk (W.view world.old).disk_faults (W.view world.new).disk_faults) }
{
    let mut reader: PinReader<K, P> = PinReader {
        keeper,
        pin: view.number,
        counts: view.counts,
        around: PhantomData,
    };
    let answer = ask(
        alloc,
        &mut reader,
        world,
        &view.known,
        &view.searches,
        command,
    );
    let PinReader { keeper, .. } = reader;
    (keeper, answer)
}

/// Asks a pin, and gives the keeper back, which holds and tells what it did: the answer is that of the tree which the pin keeps.
pub(crate) fn ask_keeping<W: Outside, K: Pinner<W>>(
    alloc: Global,
    keeper: K,
    world: &mut W,
    view: &PinView,
    command: &Command,
) -> (K, Result<SearchOutcome, Stop>)
    ensures answer { (N : Nodes) (X : Searching) → K.holds keeper (W.view world.old) N → TellsTree (K.pinned keeper (W.view world.old) view.now.number) view.now.counts.last view.now.known view.now.searches X → Says (comes_to X) (asked X command.now) result.1 }
    ensures stays { (N : Nodes) (X : Searching) → K.holds keeper (W.view world.old) N → TellsTree (K.pinned keeper (W.view world.old) view.now.number) view.now.counts.last view.now.known view.now.searches X
        → ((M : Nodes) → K.holds keeper (W.view world.old) M → K.holds result.0 (W.view world.new) M) × KeepsTold (K.pinned keeper (W.view world.old)) (K.pinned result.0 (W.view world.new)) × (K.last result.0 ≡ K.last keeper) }
    ensures room { K.room result.0 ≡ K.room keeper }
    ensures same { Untouched (W.view world.old) (W.view world.new) }
    ensures cause { IfErr result.1 (IsCaused K.has_disk (W.view world.old).disk_faults (W.view world.new).disk_faults) }
{
    ask_under::<Brand, W, K>(alloc, keeper, world, view, command)
}
