//! A new store.
ghost use Rattle.std.specs.Prelude.{◌≡◌, ℕ, length, IsTrue, IfOk};
ghost use Rattle.node_port.specs.Nodes.{ascend, changed, no_nodes, node_at};
ghost use Rattle.mail_tree.specs.Folders.{place};
ghost use Rattle.mail_tree.specs.Places.{ROOT as ROOT_ID};
ghost use Rattle.mail_tree.specs.Start.{IsStart, start_last, start_places};
ghost use Rattle.mail_tree.specs.Tree.{StandsAt, Tree, object_at};

use crate::entries::start_entries;
use crate::folders::{DELETED, ROOT, SEARCH_ROOT, TOP};
use crate::writing::write_all;
use mail_tree::{FolderPlace, Places, Sort};
use mapi_values::Units;
use node_port::{Counts, NodeRec};
use pst_base::Nid;
use std::alloc::{AllocError, Global};

/// The nodes of a new store, ascending by id, its counters, and where its folders stand.
#[derive(Drop)]
pub struct NewStore {
    pub nodes: Vec<(Nid, Option<NodeRec>)>,
    pub counts: Counts,
    pub places: Places,
}

/// The counters of a new store.
fn start_counts() -> Counts
    ensures { result.last ≡ start_last }
{
    let mut last = [0x400; 32];
    last[2] = 0x403;
    last[3] = 0x4000;
    last[4] = 0x1_0000;
    last[8] = 0x8000;
    Counts { last }
}

/// The place of a plain folder in the root.
fn place(folder: u32) -> FolderPlace
    ensures { result ≡ place folder ROOT_ID }
{
    FolderPlace {
        nid: Nid { bits: folder },
        parent: Nid { bits: ROOT },
        sort: Sort::Plain,
    }
}

/// Where the folders of a new store stand.
fn start_places(alloc: Global) -> Result<Places, AllocError>
    ensures { IfOk result (λ places. places ≡ start_places) }
{
    let mut places = Places::new(alloc);
    places.put(place(ROOT))?;
    places.put(place(TOP))?;
    places.put(place(SEARCH_ROOT))?;
    places.put(place(DELETED))?;
    Ok(places)
}

/// A new store of this name: 26 nodes, among them the folders *Top of Personal Folders*, *Search Root* and *Deleted Items* below the root. The error: memory ran out.
pub fn new_store(alloc: Global, name: &Units) -> Result<NewStore, AllocError>
    ensures ascend { IfOk result (λ s. IsTrue (ascend 0 s.nodes.items)) }
    ensures many { IfOk result (λ s. length s.nodes.items ≡ 26) }
    ensures counts { IfOk result (λ s. s.counts.last ≡ start_last) }
    ensures places { IfOk result (λ s. s.places ≡ start_places) }
    // Where there were no nodes, the new ones show the tree of a new store.
    ensures shows { IfOk result (λ s. (T : Tree) × IsStart name.now T × ((q : ℕ) → StandsAt q (node_at (changed no_nodes s.nodes.items) q) (object_at T q) (node_at T.others q))) }
{
    let entries = start_entries(alloc, name)?;
    Ok(NewStore {
        nodes: write_all(alloc, entries.as_slice())?,
        counts: start_counts(),
        places: start_places(alloc)?,
    })
}
