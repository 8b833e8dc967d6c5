//! What stands at ids, written as nodes.
ghost use Rattle.std.specs.Prelude.{◌≡◌, ℕ, true, IfOk};
ghost use Rattle.std.specs.List.{list_all};
ghost use Rattle.new_store.specs.Entries.{AreNodesOf, IsNodeOf, can_write, entry_fits, stands_here};

use crate::entries::Entry;
use mail_objects::{Object, write_object};
use node_port::NodeRec;
use pst_base::{Blocks, Nid, Subs};
use std::alloc::{AllocError, Global};

/// The node of an object, or one without data for `None`.
fn write_entry(alloc: Global, entry: &Option<Object>) -> Result<NodeRec, AllocError>
    requires { entry_fits entry.now ≡ true }
    ensures { IfOk result (λ node. (q : ℕ) → stands_here q entry.now ≡ true → IsNodeOf q entry.now node) }
{
    match entry {
        Some(object) => write_object(alloc, object),
        None => Ok(NodeRec {
            parent: Nid { bits: 0 },
            blocks: Blocks::new(alloc),
            subs: Subs::new(alloc),
        }),
    }
}

/// The nodes of what stands at some ids.
pub fn write_all(
    alloc: Global,
    entries: &[Entry],
) -> Result<Vec<(Nid, Option<NodeRec>)>, AllocError>
    requires { list_all can_write entries.now ≡ true }
    ensures { IfOk result (λ nodes. AreNodesOf entries.now nodes.items) }
{
    let mut nodes = Vec::with_capacity(alloc, entries.len())?;
    for entry in entries {
        let node = write_entry(alloc, &entry.1)?;
        nodes.push((entry.0, Some(node)))?;
    }
    Ok(nodes)
}
