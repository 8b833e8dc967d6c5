//! Counts of folders, and the rows that show them.
ghost use Rattle.std.specs.Prelude.{◌≡◌};
ghost use Rattle.std.specs.List.{list_any};
ghost use Rattle.mail_tree.specs.Places.{is_child};

use mail_tree::{FolderPlace, Places, ROOT_FOLDER};
use pst_base::Nid;

/// Whether a folder stands directly in that one.
fn is_child(parent: Nid, place: &FolderPlace) -> bool
    ensures { result ≡ is_child parent.bits place.now }
{
    place.parent.bits == parent.bits && place.nid.bits != ROOT_FOLDER
}

/// Whether some folder stands directly in that one.
pub(crate) fn has_folders(places: &Places, folder: Nid) -> bool
    ensures { result ≡ list_any (is_child folder.bits) places.now }
{
    places
        .as_slice()
        .iter()
        .any(|place| is_child(folder, place))
}
