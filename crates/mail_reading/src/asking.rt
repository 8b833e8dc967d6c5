//! Each command that only reads, by its name.
ghost use Rattle.std.specs.Prelude.{◌≡◌, IfErr};
ghost use Rattle.mail_tree.specs.Changing.{nothing};
ghost use Rattle.mail_tree.specs.Knowing.{Knows};
ghost use Rattle.mail_tree.specs.Tree.{Shown};
ghost use Rattle.search_folders.specs.mail_draft.Answers.{IsCaused, Looks, Says};
ghost use Rattle.search_folders.specs.mail_draft.Drafts.{changed_of};
ghost use Rattle.search_folders.specs.mail_draft.Sight.{Reads};
ghost use Rattle.mail_searches.specs.Searching.{Searching};
ghost use Rattle.search_folders.specs.Comings.{ComesAmong, KnowsSearches, comes_to};
ghost use Rattle.search_folders.specs.Among.{ComesTo, among};
ghost use Rattle.search_folders.specs.mail_draft.Showing.{Showing};
ghost use Rattle.mail_reading.specs.Asked.{asked};

use crate::reading::read;
use command_text::Command;
use mail_searches::KnownSearches;
use mail_tree::Known;
use node_port::NodeReader;
use pst_outside::Outside;
use search_folders::mail_draft::{Desk, Draft, Seen, Stop, StoreDesk};
use search_folders::mail_folders::FolderDesk;
use search_folders::{Coming, SearchOutcome, get_criteria, list_folder};
use std::alloc::Global;
use std::mem::replace;

/// What a command comes to where a store is only read, or why it is refused: `Line` of each that could change something.
#[tactic(auto, unfolding(mail_searches::specs::Step::outcome, command_text::specs::Asking::asks))]
fn ask_on_desk<D: FolderDesk>(
    desk: &mut D,
    searches: &KnownSearches,
    command: &Command,
) -> Result<Coming, Stop>
    requires fresh { (D.view desk.old).changed ≡ nothing }
    ensures reads { Reads (D.view desk.old) (D.view desk.new) result }
    ensures answer { ComesAmong (D.view desk.old) (D.view desk.new) searches.now (λ X. asked X command.now) result }
{
    match command {
        Command::ListFolder { folder } => list_folder(desk, searches, *folder),
        Command::GetCriteria { search } => get_criteria(desk, searches, *search),
        _ => {
            let tree = read(desk, command)?;
            Ok(Coming::staying(tree))
        }
    }
}

/// What such a command comes to on a desk over a keeper, whose draft is taken.
fn taken<W: Outside, K: NodeReader<W>>(
    desk: &mut StoreDesk<'_, '_, '_, '_, '_, '_, W, K>,
    searches: &KnownSearches,
    command: &Command,
) -> Result<SearchOutcome, Stop>
    requires fresh { changed_of desk.old.draft.now ≡ nothing }
    ensures names { (desk.new.keeper.ghost_name ≡ desk.old.keeper.ghost_name) × (desk.new.world.ghost_name ≡ desk.old.world.ghost_name) × (desk.new.seen.ghost_name ≡ desk.old.seen.ghost_name) × (desk.new.draft.ghost_name ≡ desk.old.draft.ghost_name) }
    ensures answer { ComesTo (among (Showing (K.holds desk.old.keeper.now (W.view desk.old.world.now)) (K.last desk.old.keeper.now) desk.old.places.now desk.old.flags.now desk.old.seen.now) searches.now) (λ X. asked X command.now) result }
    ensures looks { Looks (K.holds desk.old.keeper.now (W.view desk.old.world.now)) (K.holds desk.new.keeper.now (W.view desk.new.world.now)) (K.last desk.old.keeper.now) (K.last desk.new.keeper.now) (K.room desk.old.keeper.now) (K.room desk.new.keeper.now) (W.view desk.old.world.now) (W.view desk.new.world.now) }
    ensures cause { IfErr result (IsCaused K.has_disk (W.view desk.old.world.now).disk_faults (W.view desk.new.world.now).disk_faults) }
{
    let coming = ask_on_desk(desk, searches, command)?;
    let draft = replace(desk.draft, Draft::new(desk.alloc));
    Ok(SearchOutcome::new(draft, coming))
}

/// What a command comes to where a store is only read, or why it is refused: `Line` of each that could change something. Nothing changes. `Fault` comes where the disk failed, `Memory` where there was no memory, and `Changed` where something isn't as it was found before.
pub fn ask<W: Outside, K: NodeReader<W>>(
    alloc: Global,
    keeper: &mut K,
    w: &mut W,
    known: &Known,
    searches: &KnownSearches,
    command: &Command,
) -> Result<SearchOutcome, Stop>
    ensures answer { (X : Searching) → Shown (K.holds keeper.old (W.view w.old)) (K.last keeper.old) X.tree → Knows X.tree known.now → KnowsSearches X searches.now → Says (comes_to X) (asked X command.now) result }
    ensures looks { Looks (K.holds keeper.old (W.view w.old)) (K.holds keeper.new (W.view w.new)) (K.last keeper.old) (K.last keeper.new) (K.room keeper.old) (K.room keeper.new) (W.view w.old) (W.view w.new) }
    ensures cause { IfErr result (IsCaused K.has_disk (W.view w.old).disk_faults (W.view w.new).disk_faults) }
{
    let mut seen = Seen::new(alloc);
    let mut draft = Draft::new(alloc);
    let mut desk = StoreDesk {
        keeper,
        world: w,
        places: &known.places,
        flags: &known.flags,
        seen: &mut seen,
        draft: &mut draft,
        alloc,
    };
    taken(&mut desk, searches, command)
}
