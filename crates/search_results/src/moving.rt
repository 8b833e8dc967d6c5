//! The messages within a folder that moves.
ghost use Rattle.std.specs.Prelude.{◌≡◌};
ghost use Rattle.mail_tree.specs.Places.{is_plain};
ghost use Rattle.mail_draft.specs.Sight.{Answers, Reads};
ghost use Rattle.mail_searches.specs.Touching.{carried};
ghost use Rattle.search_results.specs.Moving.{carried_along, carried_one, carried_in, joined, stands_directly};

use crate::desk::SearchDesk;
use crate::touched::TouchedMessage;
use mail_draft::{Desk, Stop, contents};
use mail_tree::{FolderPlace, Places, Sort};
use pst_base::Nid;

/// A message that stays as it is, while the folder in which it stands moves.
fn carried_one<D: SearchDesk>(desk: &mut D, id: u32) -> Result<TouchedMessage, Stop>
    ensures reads { Reads (D.view desk.old) (D.view desk.new) result }
    ensures answer { Answers (D.view desk.old) (λ t. t) (λ T c. carried_one T id) result }
{
    let nid = Nid { bits: id };
    let mail = desk.message_before(nid)?;
    let old = mail.copy(desk.alloc())?;
    Ok(TouchedMessage {
        nid,
        old: Some(old),
        new: Some(mail),
        anew: false,
    })
}

/// Messages that stay as they are, while the folder in which they stand moves.
fn carried<D: SearchDesk>(desk: &mut D, ids: &[u32]) -> Result<Vec<TouchedMessage>, Stop>
    ensures reads { Reads (D.view desk.old) (D.view desk.new) result }
    ensures answer { Answers (D.view desk.old) (λ ts. ts.items) (λ T c. carried T ids.now) result }
{
    let mut touches = Vec::new(desk.alloc());
    for id in ids {
        let touch = carried_one(desk, *id)?;
        touches.push(touch)?;
    }
    Ok(touches)
}

/// Whether a folder holds folders and messages.
fn is_plain(place: &FolderPlace) -> bool
    ensures { result ≡ is_plain place.now }
{
    match place.sort {
        Sort::Plain => true,
        Sort::Foreign => false,
    }
}

/// The messages of a folder, if that is plain and stands within the one that moves.
fn carried_in<D: SearchDesk>(
    desk: &mut D,
    folder: Nid,
    place: FolderPlace,
) -> Result<Vec<TouchedMessage>, Stop>
    ensures reads { Reads (D.view desk.old) (D.view desk.new) result }
    ensures answer { Answers (D.view desk.old) (λ ts. ts.items) (λ T c. carried_in T folder.bits place) result }
{
    if !is_plain(&place) {
        return Ok(Vec::new(desk.alloc()));
    }
    if !desk.places().is_within(desk.alloc(), folder, place.nid)? {
        return Ok(Vec::new(desk.alloc()));
    }
    let ids = desk.message_ids_before(contents(place.nid))?;
    carried(desk, ids.as_slice())
}

/// The messages in those of these folders that are plain and stand within the one that moves.
fn messages_below<D: SearchDesk>(
    desk: &mut D,
    places: &Places,
    folder: Nid,
) -> Result<Vec<TouchedMessage>, Stop>
    ensures reads { Reads (D.view desk.old) (D.view desk.new) result }
    ensures answer { Answers (D.view desk.old) (λ ts. ts.items) (λ T c. joined (carried_in T folder.bits) places.now) result }
{
    let mut touches = Vec::new(desk.alloc());
    for place in places.as_slice() {
        let mut more = carried_in(desk, folder, *place)?;
        touches.append(&mut more)?;
    }
    Ok(touches)
}

/// Whether a folder stands directly in that one.
fn stands_directly(places: &Places, folder: Nid, parent: Nid) -> bool
    ensures { result ≡ stands_directly places.now folder.bits parent.bits }
{
    match places.find(folder) {
        Some(place) => place.parent.bits == parent.bits,
        None => false,
    }
}

/// The messages within a folder that moves into that one. Where it stands there already, nothing moves.
pub(crate) fn carried_along<D: SearchDesk>(
    desk: &mut D,
    folder: Nid,
    parent: Nid,
) -> Result<Vec<TouchedMessage>, Stop>
    ensures reads { Reads (D.view desk.old) (D.view desk.new) result }
    ensures answer { Answers (D.view desk.old) (λ ts. ts.items) (λ T c. carried_along T folder.bits parent.bits) result }
{
    if stands_directly(desk.places(), folder, parent) {
        return Ok(Vec::new(desk.alloc()));
    }
    let places = desk.places().copy(desk.alloc())?;
    messages_below(desk, &places, folder)
}
