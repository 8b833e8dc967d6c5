//! Folders that the store names.
ghost use Rattle.std.specs.Prelude.{◌≡◌, IfErr};
ghost use Rattle.mail_tree.specs.Values.{bytes_of, is_special, names_node};
ghost use Rattle.mail_tree.specs.Folders.{unless_protected};
ghost use Rattle.mail_draft.specs.Answers.{IsCalm, Says};
ghost use Rattle.mail_draft.specs.Sight.{Answers, Reads};
ghost use Rattle.mail_folders.specs.Pieces.{unless_special};

use crate::names::ROOT;
use command_text::CommandRefusal;
use mail_draft::{Desk, Stop, bytes_of};
use mapi_values::Props;
use mapi_values::tags::{
    PID_TAG_FINDER_ENTRY_ID, PID_TAG_IPM_SUBTREE_ENTRY_ID, PID_TAG_IPM_WASTEBASKET_ENTRY_ID,
    PTYP_BINARY,
};
use pst_base::{Nid, u32_at};

/// The store's own values.
const STORE: Nid = Nid { bits: 0x21 };

/// Whether the entry id of this id among the store's values names a node.
fn names_node(nid: Nid, store: &Props, id: u16) -> bool
    ensures { result ≡ names_node nid.bits (bytes_of id 0x0102 store.now) }
{
    match bytes_of(store, id, PTYP_BINARY) {
        Some(entry) => entry.len() == 24 && u32_at(entry, 20) == nid.bits,
        None => false,
    }
}

/// Whether the store names a folder as its top, its deleted items, or its place for search folders.
fn is_special(folder: Nid, store: &Props) -> bool
    ensures { result ≡ is_special folder.bits store.now }
{
    names_node(folder, store, PID_TAG_IPM_SUBTREE_ENTRY_ID.id)
        || names_node(folder, store, PID_TAG_IPM_WASTEBASKET_ENTRY_ID.id)
        || names_node(folder, store, PID_TAG_FINDER_ENTRY_ID.id)
}

/// Refused where a folder is the root, or one that the store with these values names.
fn unless_special(folder: Nid, store: &Props) -> Result<(), Stop>
    ensures answer { Says (λ u. u) (unless_special folder.bits store.now) result }
    ensures calm { IfErr result IsCalm }
{
    if folder.bits == ROOT || is_special(folder, store) {
        return Err(Stop::Refused(CommandRefusal::Protected));
    }
    Ok(())
}

/// Refused where a folder is the root, or one that the store names.
pub fn unless_protected<D: Desk>(desk: &mut D, folder: Nid) -> Result<(), Stop>
    ensures reads { Reads (D.view desk.old) (D.view desk.new) result }
    ensures answer { Answers (D.view desk.old) (λ u. u) (λ T c. unless_protected T folder.bits) result }
{
    let store = desk.context_before(STORE)?;
    unless_special(folder, store.props())
}
