//! What the commands on folders ask of the desk over a keeper.
use crate::desk::{FolderDesk, FolderMakingDesk};
use crate::reading::is_taken;
use mail_draft::{Coming, CountingDesk, Stop, StoreDesk, on_desk};
use mail_tree::{Flags, Places};
use node_port::{Keeper, NodeReader};
use pst_base::Nid;
use pst_outside::Outside;

/// The kinds of a folder's nodes.
const FOLDER_KINDS: [u8; 4] = [0x02, 0x0D, 0x0E, 0x0F];

impl<'k, 'w, 'p, 'f, 's, 'd, W: Outside, K: NodeReader<W>> FolderDesk
    for StoreDesk<'k, 'w, 'p, 'f, 's, 'd, W, K> {
    fn flags(&self) -> &Flags {
        self.flags
    }

    fn is_taken(&mut self, nid: Nid) -> Result<bool, Stop> {
        is_taken(self.alloc, self.keeper, self.world, nid)
    }

    fn mirror(&mut self, folder: Nid) -> Result<(), Stop> {
        on_desk::mirrored(self, folder)
    }

    fn settle(&mut self, places: &Places, folder: Nid) -> Result<(), Stop> {
        on_desk::settled_at(self, places, folder)
    }
}

impl<'k, 'w, 'p, 'f, 's, 'd, W: Outside, K: Keeper<W>> FolderMakingDesk
    for StoreDesk<'k, 'w, 'p, 'f, 's, 'd, W, K> {
    fn next_folder(&mut self) -> Result<u64, Stop> {
        self.next_index(2, &FOLDER_KINDS)
    }

    fn make(&mut self, places: Places, index: u64) -> Result<Coming, Stop> {
        on_desk::making(self, Some(places), 2, index)
    }
}
