//! Folders that a command names.
ghost use Rattle.std.specs.Prelude.{◌≡◌, IfErr};
ghost use Rattle.mail_tree.specs.Tree.{Tree};
ghost use Rattle.mail_tree.specs.Folders.{folder_in, unless_plain};
ghost use Rattle.mail_folders.specs.Pieces.{both_plain_in, plain_in};
ghost use Rattle.mail_draft.specs.Answers.{IsCalm, Says};

use command_text::CommandRefusal;
use mail_draft::Stop;
use mail_tree::{FolderPlace, Places, Sort};
use pst_base::Nid;

/// Where a folder stands. Refused where it isn't there.
pub fn folder_in(places: &Places, folder: Nid) -> Result<FolderPlace, Stop>
    ensures answer { (T : Tree) → T.places ≡ places.now → Says (λ p. p) (folder_in T folder.bits) result }
    ensures calm { IfErr result IsCalm }
{
    match places.find(folder) {
        None => Err(Stop::Refused(CommandRefusal::Object)),
        Some(place) => Ok(*place),
    }
}

/// Refused where the folder isn't one that holds folders and messages.
pub(crate) fn unless_plain(place: FolderPlace) -> Result<(), Stop>
    ensures answer { Says (λ u. u) (unless_plain place) result }
    ensures calm { IfErr result IsCalm }
{
    match place.sort {
        Sort::Plain => Ok(()),
        Sort::Foreign => Err(Stop::Refused(CommandRefusal::Reserved)),
    }
}

/// Where a plain folder stands.
#[tactic(auto, unfolding(crate::specs::Pieces::plain_in))]
pub fn plain_in(places: &Places, folder: Nid) -> Result<FolderPlace, Stop>
    ensures answer { (T : Tree) → T.places ≡ places.now → Says (λ p. p) (plain_in T folder.bits) result }
    ensures calm { IfErr result IsCalm }
{
    let place = folder_in(places, folder)?;
    unless_plain(place)?;
    Ok(place)
}

/// Where the first of two plain folders stands. What isn't there comes before what is of another sort.
#[tactic(auto, unfolding(crate::specs::Pieces::both_plain_in))]
pub(crate) fn both_plain_in(places: &Places, first: Nid, second: Nid) -> Result<FolderPlace, Stop>
    ensures answer { (T : Tree) → T.places ≡ places.now → Says (λ p. p) (both_plain_in T first.bits second.bits) result }
    ensures calm { IfErr result IsCalm }
{
    let place = folder_in(places, first)?;
    let other = folder_in(places, second)?;
    unless_plain(place)?;
    unless_plain(other)?;
    Ok(place)
}
