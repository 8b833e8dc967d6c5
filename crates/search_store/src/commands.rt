//! Each command, by its name, over a desk.
ghost use Rattle.std.specs.Prelude.{◌≡◌, true};
ghost use Rattle.mail_tree.specs.Changing.{nothing};
ghost use Rattle.mail_draft.specs.Sight.{Drafts};
ghost use Rattle.mail_searches.specs.Moving.{moved_search, renamed_search};
ghost use Rattle.mail_searches.specs.Step.{outcome, plain_outcome};
ghost use Rattle.search_folders.specs.Among.{among};
ghost use Rattle.search_folders.specs.Comings.{ComesAmong};
ghost use Rattle.search_folders.specs.Pieces.{stays_after};
ghost use Rattle.search_store.specs.Planning.{AsksAlone, follows};

use command_text::Command;
use mail_draft::{CountingDesk, Stop};
use mail_searches::KnownSearches;
use mail_store::outcome as outcome_in_tree;
use mapi_values::Units;
use pst_base::{Ledger, Nid, Steps};
use search_folders::mail_folders::FolderMakingDesk;
use search_folders::search_results::{SearchDesk, conclude};
use search_folders::{
    Coming, get_criteria, list_folder, make_search, move_search, remove_search, rename_search,
    set_criteria,
};

/// What a command that knows no searches comes to: what it comes to in the tree, with what it changes in the lists of searches.
fn follow<D: SearchDesk + FolderMakingDesk + CountingDesk, L: Ledger>(
    desk: &mut D,
    searches: &KnownSearches,
    command: &Command,
    steps: &mut Steps<L>,
) -> Result<Coming, Stop>
    requires fresh { (D.view desk.old).changed ≡ nothing }
    ensures drafts { Drafts (D.view desk.old) (D.view desk.new) result }
    ensures answer { ComesAmong (D.view desk.old) (D.view desk.new) searches.now (λ X. plain_outcome X command.now) result }
    ensures asks { AsksAlone (among (D.view desk.old).shows searches.now) command.now steps.old steps.new }
{
    let coming = outcome_in_tree(desk, command)?;
    let tree = conclude(desk, &searches.searches, command, coming, steps)?;
    Ok(Coming::staying(tree))
}

/// Gives an own search folder another name.
fn rename_own<D: SearchDesk>(
    desk: &mut D,
    _searches: &KnownSearches,
    search: Nid,
    name: &Units,
) -> Result<Coming, Stop>
    requires fresh { (D.view desk.old).changed ≡ nothing }
    ensures drafts { Drafts (D.view desk.old) (D.view desk.new) result }
    ensures answer { ComesAmong (D.view desk.old) (D.view desk.new) _searches.now (λ X. stays_after X (renamed_search X.tree search.bits name.now)) result }
{
    let tree = rename_search(desk, search, name)?;
    Ok(Coming::staying(tree))
}

/// Moves an own search folder into a parent.
fn move_own<D: SearchDesk>(
    desk: &mut D,
    _searches: &KnownSearches,
    search: Nid,
    parent: Nid,
) -> Result<Coming, Stop>
    requires fresh { (D.view desk.old).changed ≡ nothing }
    ensures drafts { Drafts (D.view desk.old) (D.view desk.new) result }
    ensures answer { ComesAmong (D.view desk.old) (D.view desk.new) _searches.now (λ X. stays_after X (moved_search X.tree search.bits parent.bits)) result }
{
    let tree = move_search(desk, search, parent)?;
    Ok(Coming::staying(tree))
}

/// What a command comes to, or why it is refused.
#[tactic(auto, unfolding(mail_searches::specs::Step::outcome))]
pub(crate) fn outcome<D: SearchDesk + FolderMakingDesk + CountingDesk, L: Ledger>(
    desk: &mut D,
    searches: &KnownSearches,
    command: &Command,
    steps: &mut Steps<L>,
) -> Result<Coming, Stop>
    requires fresh { (D.view desk.old).changed ≡ nothing }
    ensures drafts { Drafts (D.view desk.old) (D.view desk.new) result }
    ensures answer { ComesAmong (D.view desk.old) (D.view desk.new) searches.now (λ X. outcome X command.now) result }
    ensures asks { follows command.now ≡ true → AsksAlone (among (D.view desk.old).shows searches.now) command.now steps.old steps.new }
{
    match command {
        Command::MakeSearch { parent, name } => make_search(desk, searches, *parent, name),
        Command::SetCriteria {
            search,
            flags,
            scope,
            restriction,
        } => set_criteria(desk, searches, *search, *flags, scope, restriction, steps),
        Command::GetCriteria { search } => get_criteria(desk, searches, *search),
        Command::RenameFolder { folder, name } => {
            if searches.own.contains(*folder) {
                rename_own(desk, searches, *folder, name)
            } else {
                follow(desk, searches, command, steps)
            }
        }
        Command::MoveFolder { folder, parent } => {
            if searches.own.contains(*folder) {
                move_own(desk, searches, *folder, *parent)
            } else {
                follow(desk, searches, command, steps)
            }
        }
        Command::RemoveFolder { folder } => {
            if searches.own.contains(*folder) {
                remove_search(desk, searches, *folder)
            } else {
                follow(desk, searches, command, steps)
            }
        }
        Command::ListFolder { folder } => list_folder(desk, searches, *folder),
        Command::MakeFolder { .. }
        | Command::NewMessage { .. }
        | Command::SetProperty { .. }
        | Command::UnsetProperty { .. }
        | Command::GetProperty { .. }
        | Command::ListProperties { .. }
        | Command::MoveMessage { .. }
        | Command::CopyMessage { .. }
        | Command::RemoveMessage { .. }
        | Command::AddRecipient { .. }
        | Command::RemoveRecipient { .. }
        | Command::AddAttachment { .. }
        | Command::AppendData { .. }
        | Command::SetEmbedded { .. }
        | Command::RemoveAttachment { .. }
        | Command::FetchData { .. }
        | Command::NameProperty { .. }
        | Command::Save
        | Command::Quit => follow(desk, searches, command, steps),
    }
}
