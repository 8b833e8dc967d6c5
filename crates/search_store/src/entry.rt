//! What a command comes to over a keeper and its world: the desk is made here, once for a command.
ghost use Rattle.std.specs.Prelude.{◌≡◌, IfErr, true};
ghost use Rattle.mail_tree.specs.Changing.{nothing};
ghost use Rattle.mail_draft.specs.Answers.{IsCaused, Looks};
ghost use Rattle.mail_draft.specs.Drafts.{changed_of};
ghost use Rattle.mail_searches.specs.Step.{outcome};
ghost use Rattle.search_folders.specs.Among.{ComesTo, among};
ghost use Rattle.mail_draft.specs.Showing.{Showing};
ghost use Rattle.search_store.specs.Planning.{AsksAlone, StoresSearches, follows};

use crate::commands;
use command_text::Command;
use mail_draft::{Draft, Seen, Stop, StoreDesk};
use mail_searches::KnownSearches;
use mail_tree::Known;
use node_port::Keeper;
use pst_base::{Ledger, Steps};
use pst_outside::Outside;
use search_folders::SearchOutcome;
use std::alloc::Global;
use std::mem::replace;

/// What a command comes to on a desk over a keeper, whose draft is taken.
fn taken<W: Outside, K: Keeper<W>, L: Ledger>(
    desk: &mut StoreDesk<'_, '_, '_, '_, '_, '_, W, K>,
    searches: &KnownSearches,
    command: &Command,
    steps: &mut Steps<L>,
) -> Result<SearchOutcome, Stop>
    requires fresh { changed_of desk.old.draft.now ≡ nothing }
    ensures names { (desk.new.keeper.ghost_name ≡ desk.old.keeper.ghost_name) × (desk.new.world.ghost_name ≡ desk.old.world.ghost_name) × (desk.new.seen.ghost_name ≡ desk.old.seen.ghost_name) × (desk.new.draft.ghost_name ≡ desk.old.draft.ghost_name) }
    ensures answer { ComesTo (among (Showing (K.holds desk.old.keeper.now (W.view desk.old.world.now)) (K.last desk.old.keeper.now) desk.old.places.now desk.old.flags.now desk.old.seen.now) searches.now) (λ X. outcome X command.now) result }
    ensures asks { follows command.now ≡ true → AsksAlone (among (Showing (K.holds desk.old.keeper.now (W.view desk.old.world.now)) (K.last desk.old.keeper.now) desk.old.places.now desk.old.flags.now desk.old.seen.now) searches.now) command.now steps.old steps.new }
    ensures looks { Looks (K.holds desk.old.keeper.now (W.view desk.old.world.now)) (K.holds desk.new.keeper.now (W.view desk.new.world.now)) (K.last desk.old.keeper.now) (K.last desk.new.keeper.now) (K.room desk.old.keeper.now) (K.room desk.new.keeper.now) (W.view desk.old.world.now) (W.view desk.new.world.now) }
    ensures cause { IfErr result (IsCaused K.has_disk (W.view desk.old.world.now).disk_faults (W.view desk.new.world.now).disk_faults) }
{
    let coming = commands::outcome(desk, searches, command, steps)?;
    let draft = replace(desk.draft, Draft::new(desk.alloc));
    Ok(SearchOutcome::new(draft, coming))
}

/// What a command comes to, or why it is refused. Nothing changes but the count of steps. `Fault` comes where the disk failed, `Memory` where there was no memory, and `Changed` where something isn't as it was found before.
pub(crate) fn outcome<W: Outside, K: Keeper<W>, L: Ledger>(
    alloc: Global,
    keeper: &mut K,
    w: &mut W,
    known: &Known,
    searches: &KnownSearches,
    command: &Command,
    steps: &mut Steps<L>,
) -> Result<SearchOutcome, Stop>
    ensures answer { ComesTo (StoresSearches (K.holds keeper.old (W.view w.old)) (K.last keeper.old) known.now searches.now) (λ X. outcome X command.now) result }
    ensures asks { follows command.now ≡ true → AsksAlone (StoresSearches (K.holds keeper.old (W.view w.old)) (K.last keeper.old) known.now searches.now) command.now steps.old steps.new }
    ensures looks { Looks (K.holds keeper.old (W.view w.old)) (K.holds keeper.new (W.view w.new)) (K.last keeper.old) (K.last keeper.new) (K.room keeper.old) (K.room keeper.new) (W.view w.old) (W.view w.new) }
    ensures cause { IfErr result (IsCaused K.has_disk (W.view w.old).disk_faults (W.view w.new).disk_faults) }
{
    let mut seen = Seen::new(alloc);
    let mut draft = Draft::new(alloc);
    let mut desk = StoreDesk {
        keeper,
        world: w,
        places: &known.places,
        flags: &known.flags,
        seen: &mut seen,
        draft: &mut draft,
        alloc,
    };
    taken(&mut desk, searches, command, steps)
}
