//! Whether a search looks in a folder.
ghost use Rattle.std.specs.Prelude.{◌≡◌, ◌==◌, ◌&&◌, map, option_map, if◌then◌else◌};
ghost use Rattle.std.specs.List.{list_any};
ghost use Rattle.mail_tree.specs.Places.{ROOT, parent_in, path};
ghost use Rattle.search_obj.specs.Scope.{is_among};
ghost use Rattle.mail_searches.specs.Searches.{is_plain_at, looked_from};

use mail_tree::{Places, ROOT_FOLDER, Sort};
use pst_base::Nid;

/// Whether there is a plain folder with this id.
fn is_plain_at(places: &Places, folder: Nid) -> bool
    ensures { result ≡ is_plain_at places.now folder.bits }
{
    match places.find(folder) {
        Some(place) => match place.sort {
            Sort::Plain => true,
            Sort::Foreign => false,
        },
        None => false,
    }
}

/// Whether a folder is one of these.
fn is_among(folders: &[Nid], folder: Nid) -> bool
    ensures { result ≡ is_among (map (λ n. n.bits) folders.now) folder.bits }
{
    for given in folders {
        if given.bits == folder.bits {
            return true;
        }
    }
    false
}

/// Whether a plain folder is one of these.
fn is_given(places: &Places, given: &[Nid], folder: Nid) -> bool
    ensures { result ≡ (is_among (map (λ n. n.bits) given.now) folder.bits && is_plain_at places.now folder.bits) }
{
    is_among(given, folder) && is_plain_at(places, folder)
}

/// The folder that a folder stands in; the root stands in none.
fn above(places: &Places, folder: Nid) -> Option<Nid>
    ensures { option_map (λ p. p.bits) result ≡ (if folder.bits == ROOT then None else parent_in places.now folder.bits) }
{
    if folder.bits == ROOT_FOLDER {
        return None;
    }
    match places.find(folder) {
        Some(place) => Some(place.parent),
        None => None,
    }
}

/// Whether a folder or one above it, up to the root and at most 64, is one of these plain folders. Takes no memory.
fn is_below_given(places: &Places, given: &[Nid], folder: Nid) -> bool
    ensures { result ≡ list_any (λ g. is_among (map (λ n. n.bits) given.now) g && is_plain_at places.now g) (path places.now folder.bits) }
{
    let mut at = folder;
    for _turn in 0..64u8 {
        if is_given(places, given, at) {
            return true;
        }
        let Some(parent) = above(places, at) else {
            return false;
        };
        at = parent;
    }
    is_given(places, given, at)
}

/// Whether a folder is one of these plain folders or, where folders below are looked in too, stands below one of them.
pub(crate) fn is_reached(places: &Places, given: &[Nid], recursive: bool, folder: Nid) -> bool
    ensures { result ≡ (is_plain_at places.now folder.bits && list_any (λ g. is_among (map (λ n. n.bits) given.now) g && is_plain_at places.now g) (looked_from places.now recursive folder.bits)) }
{
    is_plain_at(places, folder)
        && if recursive {
            is_below_given(places, given, folder)
        } else {
            is_given(places, given, folder)
        }
}
