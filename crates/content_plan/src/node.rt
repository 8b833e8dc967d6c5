//! What the change of one node comes to.
ghost use Rattle.std.specs.Prelude.{◌≡◌, ◌≤◌, ◌<◌, ◌+◌, ◌*◌, ◌%◌, ◌^◌, ℕ, List, [], ◌∷◌, Option, Some, None, length, map, IfOk, IfErr};
ghost use Rattle.btree_pages.specs.declared.entry.NodeEntry.{NodeEntry as Entry};
ghost use Rattle.data_tree.specs.Plan.{IsContent};
ghost use Rattle.node_layout.specs.Joined.{node_id};
ghost use Rattle.node_store.specs.Told.{StopsKeeping};
ghost use Rattle.pst_outside.specs.Calls.{Untouched};
ghost use Rattle.subnode_tree.specs.Plan.{IsForm};
ghost use Rattle.tree_edit.specs.Edits.{entry_with};
ghost use Rattle.tree_edit.specs.Shapes.{RiseIn};
ghost use Rattle.content_plan.specs.Plan.{IsCounted, PlansContents};
ghost use Rattle.content_plan.specs.Told.{HasEntry, HasParts, IsOld, KeepsParts, TellsParts, content_at, content_of, keys_at};

use crate::content::Old;
use crate::form::{is_content, is_form};
use crate::plan::ContentPlan;
use crate::put::put_over;
use crate::read::{read_content, read_keys};
use btree_pages::NodeEntry;
use file_pages::{FileTree, entry_at};
use node_port::{KeepStop, NodeRec};
use node_store::{BLOCK_PAGE, NODE_PAGE, PageCaches, keep_stop, tree_stop};
use pst_base::{Blocks, Nid, Subs};
use pst_header::Header;
use pst_outside::Outside;
use std::alloc::{AllocError, Global};
use subnode_tree::Kept;

/// The entry of a node.
fn look<W: Outside>(
    w: &mut W,
    header: &Header,
    nid: Nid,
    caches: &mut PageCaches,
) -> Result<Option<NodeEntry>, KeepStop>
    ensures id { nid.bits < 2 ^ 64 }
    ensures found { IfOk result (λ found. (find : ℕ → Option (List ℕ)) (es : List Entry) → TellsParts (W.view w.old) header.now caches.old find es → entry_with node_id nid.bits es ≡ found) }
    ensures stops { IfErr result (StopsKeeping (W.view w.old) (W.view w.new) (HasParts (W.view w.old) header.now caches.old)) }
    ensures keeps { KeepsParts (W.view w.old) (W.view w.new) header.now caches.old caches.new }
    ensures untouched { Untouched (W.view w.old) (W.view w.new) }
{
    let tree = FileTree {
        kind: NODE_PAGE,
        root: header.nbt,
        eof: header.eof,
    };
    match entry_at::<NodeEntry, W>(w, &mut caches.nodes, tree, u64::from(nid.bits)) {
        Ok(found) => Ok(found),
        Err(stop) => Err(keep_stop(stop)),
    }
}

/// The keys that a node reaches that may be there.
fn old_keys<W: Outside>(
    alloc: Global,
    w: &mut W,
    header: &Header,
    nid: Nid,
    entry: Option<NodeEntry>,
    caches: &mut PageCaches,
) -> Result<Vec<u64>, KeepStop>
    ensures keys { IfOk result (λ keys. (find : ℕ → Option (List ℕ)) (es : List Entry) → TellsParts (W.view w.old) header.now caches.old find es → entry_with node_id nid.bits es ≡ entry → keys.items ≡ keys_at find entry) }
    ensures stops { IfErr result (StopsKeeping (W.view w.old) (W.view w.new) (HasEntry (W.view w.old) header.now caches.old nid.bits entry)) }
    ensures keeps { KeepsParts (W.view w.old) (W.view w.new) header.now caches.old caches.new }
    ensures untouched { Untouched (W.view w.old) (W.view w.new) }
{
    let Some(there) = entry else {
        return Ok(Vec::new(alloc));
    };
    let tree = FileTree {
        kind: BLOCK_PAGE,
        root: header.bbt,
        eof: header.eof,
    };
    match read_keys(alloc, w, &mut caches.blocks, tree, there) {
        Ok(keys) => Ok(keys),
        Err(stop) => Err(tree_stop(header.bbt.ib, stop)),
    }
}

/// The data of a node that may be there, with the ids of its blocks.
fn old_content<W: Outside>(
    alloc: Global,
    w: &mut W,
    header: &Header,
    nid: Nid,
    entry: Option<NodeEntry>,
    caches: &mut PageCaches,
) -> Result<Old, KeepStop>
    ensures exact { IfOk result (λ old. (find : ℕ → Option (List ℕ)) (es : List Entry) → TellsParts (W.view w.old) header.now caches.old find es → content_of old ≡ content_at find header.now.eof entry) }
    ensures old { IfOk result (λ old. (find : ℕ → Option (List ℕ)) (es : List Entry) → TellsParts (W.view w.old) header.now caches.old find es → IsOld find (content_of old)) }
    ensures stops { IfErr result (StopsKeeping (W.view w.old) (W.view w.new) (HasEntry (W.view w.old) header.now caches.old nid.bits entry)) }
    ensures keeps { KeepsParts (W.view w.old) (W.view w.new) header.now caches.old caches.new }
    ensures untouched { Untouched (W.view w.old) (W.view w.new) }
{
    let Some(there) = entry else {
        return Ok(Old {
            ids: Kept::new(alloc),
            blocks: Blocks::new(alloc),
            sub_ids: Vec::new(alloc),
            subs: Subs::new(alloc),
        });
    };
    let tree = FileTree {
        kind: BLOCK_PAGE,
        root: header.bbt,
        eof: header.eof,
    };
    match read_content(alloc, w, &mut caches.blocks, tree, there) {
        Ok(old) => Ok(old),
        Err(stop) => Err(tree_stop(header.bbt.ib, stop)),
    }
}

/// The plan of a node that goes, if it is there. Its keys are those that it reaches.
fn removed(
    alloc: Global,
    nid: Nid,
    entry: Option<NodeEntry>,
    keys: Vec<u64>,
) -> Result<ContentPlan, AllocError>
    ensures counted { IfOk result (λ plan. (next : ℕ) → IsCounted next nid.bits (nid.bits + 1) ((nid, None) ∷ []) plan.edits.items plan.blocks.items) }
    ensures none { IfOk result (λ plan. plan.blocks.items ≡ []) }
    ensures plans { IfOk result (λ plan. (find : ℕ → Option (List ℕ)) (eof limit : ℕ) (es : List Entry) → RiseIn 0 (2 ^ 64) (map node_id es) → entry_with node_id nid.bits es ≡ entry → keys.items ≡ keys_at find entry → PlansContents find eof limit es ((nid, None) ∷ []) plan.edits.items plan.blocks.items plan.taken.items plan.put.items) }
{
    let mut edits = Vec::new(alloc);
    let Some(_) = entry else {
        return Ok(ContentPlan {
            edits,
            blocks: Vec::new(alloc),
            taken: keys,
            put: Vec::new(alloc),
        });
    };
    edits.push((u64::from(nid.bits), None))?;
    Ok(ContentPlan {
        edits,
        blocks: Vec::new(alloc),
        taken: keys,
        put: Vec::new(alloc),
    })
}

/// The plan of a node that is put, where the one that was there reached these keys, and the number that the next block may have.
fn placed(
    alloc: Global,
    nid: Nid,
    node: &NodeRec,
    old: &Old,
    keys: Vec<u64>,
    limit: u64,
    next: u64,
) -> Result<(ContentPlan, u64), AllocError>
    requires content { IsContent node.now.blocks }
    requires form { IsForm node.now.subs }
    requires low { 4 ≤ next }
    requires limit { limit ≤ next }
    requires high { next ≤ 2 ^ 62 }
    requires apart { next % 4 ≡ 0 }
    ensures after { IfOk result (λ made. made.1 ≡ next + 4 * length made.0.blocks.items) }
    ensures counted { IfOk result (λ made. IsCounted next nid.bits (nid.bits + 1) ((nid, Some node.now) ∷ []) made.0.edits.items made.0.blocks.items) }
    ensures plans { IfOk result (λ made. (find : ℕ → Option (List ℕ)) (eof : ℕ) (es : List Entry) → RiseIn 0 (2 ^ 64) (map node_id es) → keys.items ≡ keys_at find (entry_with node_id nid.bits es) → IsOld find (content_of old.now) → content_of old.now ≡ content_at find eof (entry_with node_id nid.bits es) → PlansContents find eof limit es ((nid, Some node.now) ∷ []) made.0.edits.items made.0.blocks.items made.0.taken.items made.0.put.items) }
{
    let put = put_over(alloc, nid, node, old, limit, next)?;
    let mut edits = Vec::new(alloc);
    edits.push((u64::from(nid.bits), Some(put.entry)))?;
    Ok((
        ContentPlan {
            edits,
            blocks: put.blocks,
            taken: keys,
            put: put.keys,
        },
        put.next,
    ))
}

/// What a change comes to, with new blocks from a number on, and the number that the next block may have. Blocks with ids below `limit` may stay.
pub(crate) fn plan_node<W: Outside>(
    alloc: Global,
    w: &mut W,
    header: &Header,
    caches: &mut PageCaches,
    change: &(Nid, Option<NodeRec>),
    limit: u64,
    next: u64,
) -> Result<(ContentPlan, u64), KeepStop>
    requires low { 4 ≤ next }
    requires limit { limit ≤ next }
    requires high { next ≤ 2 ^ 62 }
    requires apart { next % 4 ≡ 0 }
    ensures id { change.now.0.bits < 2 ^ 64 }
    ensures after { IfOk result (λ made. made.1 ≡ next + 4 * length made.0.blocks.items) }
    ensures counted { IfOk result (λ made. IsCounted next change.now.0.bits (change.now.0.bits + 1) (change.now ∷ []) made.0.edits.items made.0.blocks.items) }
    ensures plans { IfOk result (λ made. (find : ℕ → Option (List ℕ)) (es : List Entry) → TellsParts (W.view w.old) header.now caches.old find es → PlansContents find header.now.eof limit es (change.now ∷ []) made.0.edits.items made.0.blocks.items made.0.taken.items made.0.put.items) }
    ensures stops { IfErr result (StopsKeeping (W.view w.old) (W.view w.new) (HasParts (W.view w.old) header.now caches.old)) }
    ensures keeps { KeepsParts (W.view w.old) (W.view w.new) header.now caches.old caches.new }
    ensures untouched { Untouched (W.view w.old) (W.view w.new) }
{
    let nid = change.0;
    let entry = look(w, header, nid, caches)?;
    let keys = old_keys(alloc, w, header, nid, entry, caches)?;
    let Some(node) = &change.1 else {
        return Ok((removed(alloc, nid, entry, keys)?, next));
    };
    if !is_content(node.blocks.as_slice()) || !is_form(&node.subs, 8) {
        return Err(KeepStop::Memory);
    }
    let old = old_content(alloc, w, header, nid, entry, caches)?;
    Ok(placed(alloc, nid, node, &old, keys, limit, next)?)
}
