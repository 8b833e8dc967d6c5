//! A draft as changes of nodes.
ghost use Rattle.std.specs.Prelude.{◌≡◌, ℕ, true, IsTrue, IfOk};
ghost use Rattle.std.specs.FinMap as map;
ghost use Rattle.std.specs.List.{AllZip};
ghost use Rattle.node_port.specs.Nodes.{Nodes, ascend, changed, node_at};
ghost use Rattle.mail_tree.specs.Tree.{StandsAt, Tree, object_at};
ghost use Rattle.mail_tree.specs.Changing.{entry_fits};
ghost use Rattle.mail_tree.specs.Folders.{Outcome};
ghost use Rattle.mail_tree.specs.Step.{after};
ghost use Rattle.mail_draft.specs.Drafts.{all_fit, changed_of};
ghost use Rattle.mail_draft.specs.Written.{IsWritten, Writes};

use crate::draft::Draft;
use mail_objects::{Object, write_object};
use node_port::NodeRec;
use pst_base::Nid;
use std::alloc::{AllocError, Global};

/// The node of an object that is small enough, or none where the object is to go. The error: memory ran out.
fn write_entry(alloc: Global, object: &Option<Object>) -> Result<Option<NodeRec>, AllocError>
    requires { (q : ℕ) → entry_fits (q, object.now) ≡ true }
    ensures { IfOk result (IsWritten object.now) }
{
    match object {
        Some(object) => Ok(Some(write_object(alloc, object)?)),
        None => Ok(None),
    }
}

/// The nodes of a draft's objects, ascending by id, `None` for those that are to go. The error: memory ran out.
pub fn finish(alloc: Global, draft: &Draft) -> Result<Vec<(Nid, Option<NodeRec>)>, AllocError>
    requires { all_fit (changed_of draft.now) ≡ true }
    ensures ascend { IfOk result (λ cs. IsTrue (ascend 0 cs.items)) }
    ensures written { IfOk result (λ cs. AllZip Writes (map.entries (changed_of draft.now).objects) cs.items) }
    // Where nodes show a tree, they show the tree after the changes once these nodes are changed.
    ensures shows { IfOk result (λ cs. (N : Nodes) (T : Tree) (o : Outcome) → o.changed ≡ changed_of draft.now → ((q : ℕ) → StandsAt q (node_at N q) (object_at T q) (node_at T.others q))
        → (q : ℕ) → StandsAt q (node_at (changed N cs.items) q) (object_at (after T o) q) (node_at (after T o).others q)) }
{
    let mut nodes = Vec::with_capacity(alloc, draft.objects.len())?;
    for (nid, object) in &draft.objects {
        nodes.push((Nid { bits: *nid }, write_entry(alloc, object)?))?;
    }
    Ok(nodes)
}
