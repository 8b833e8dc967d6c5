//! What a planner gives for a commit.
ghost use Rattle.std.specs.Prelude.{◌≡◌, ◌≤◌, ◌++◌, ℕ, List, Option, true, length};
ghost use Rattle.pst_base.specs.declared.ids.Nid.{Nid as Nids};
ghost use Rattle.pst_header.specs.declared.header.Header.{Header as Headers};
ghost use Rattle.btree_pages.specs.declared.entry.BlockEntry.{BlockEntry as BlockEntries};
ghost use Rattle.btree_pages.specs.declared.entry.NodeEntry.{NodeEntry as NodeEntries};
ghost use Rattle.file_layout.specs.Nodes.{places_of};
ghost use Rattle.lays_kept.specs.declared.Piece.{Piece as Pieces};
ghost use Rattle.lays_kept.specs.Kept.{Each, SameAt};
ghost use Rattle.node_port.specs.declared.node.NodeRec.{NodeRec as NodeRecs};
ghost use Rattle.node_port.specs.Nodes.{Nodes, ascend, changed};
ghost use Rattle.lays_kept.specs.Stands.{FileStands, IsPlan};
ghost use Rattle.node_layout.specs.Joined.{TreePlan, places_in, IsPlanned};
ghost use Rattle.node_layout.specs.Pieces.{EachStands};
ghost use Rattle.node_layout.specs.Commit.{IsNext, HasRoom, Shows};

/// What a planner gives makes a plan that can be committed, and that comes to the changed nodes.
pub fn plans_commit()
    ensures { (found file : List ℕ) (N : Nodes) (last : List ℕ) (stands : FileStands found file N last) (new : Headers) (sealed : List ℕ) (growth planned : List Pieces)
        (blocks : TreePlan BlockEntries) (nodes : TreePlan NodeEntries) (cs : List (Nids × Option NodeRecs))
        → ascend 0 cs ≡ true → (plan : IsPlanned stands.lays blocks nodes) → IsNext stands.header new sealed blocks nodes
        → HasRoom stands.lays new growth planned (places_in blocks ++ (places_in nodes ++ plan.block_places))
        → ((bytes : List ℕ) → new.eof ≤ length bytes → Each (SameAt file bytes) (places_of (stands.lays).blocks (stands.lays).nodes) → EachStands bytes planned → Shows stands.lays new blocks nodes cs bytes)
        → IsPlan found file (growth ++ planned) sealed N last (changed N cs) new.indexes }
{}
