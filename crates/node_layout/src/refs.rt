//! What becomes of references.
ghost use Rattle.std.specs.Prelude.{◌≡◌, ◌^◌, ℕ, List, Option, Some, true, nat_lt};
ghost use Rattle.btree_pages.specs.declared.entry.BlockEntry.{BlockEntry as BlockEntries};
ghost use Rattle.btree_pages.specs.declared.entry.NodeEntry.{NodeEntry as NodeEntries};
ghost use Rattle.file_blocks.specs.Blocks.{entry_key};
ghost use Rattle.lays_kept.specs.Renewed.{EachLeads};
ghost use Rattle.tree_edit.specs.Edits.{AreEdits, edited, entry_with};
ghost use Rattle.node_layout.specs.Joined.{node_id};
ghost use Rattle.node_layout.specs.Lookups.{sum_of};
ghost use Rattle.node_layout.specs.Counts.{AreRefs, FreesUnused, put, refs_after, taken, uses};

/// The numbers that are kept by what edits of nodes take and put are those of the references in the new file, where each block that is referred to still is found as it was.
pub fn keeps_refs()
    ensures { (find after : ℕ → Option (List ℕ)) (eof : ℕ) (es : List NodeEntries) (ds : List (ℕ × Option NodeEntries)) (refs : ℕ → ℕ) → AreEdits node_id 0 (2 ^ 64) ds → AreRefs find es refs → EachLeads find eof es
        → ((key : ℕ) (b : List ℕ) → nat_lt 0 (refs_after refs (taken find es ds) (put after ds) key) ≡ true → find key ≡ Some b → after key ≡ Some b)
        → AreRefs after (edited node_id es ds) (refs_after refs (taken find es ds) (put after ds)) }
{}

/// A block that no node of the new file reaches is in its block tree only where the old one had it, and no node of the old file reached it.
pub fn frees_unused()
    ensures { (find after : ℕ → Option (List ℕ)) (old : List BlockEntries) (bd : List (ℕ × Option BlockEntries)) (es new : List NodeEntries) (refs next : ℕ → ℕ) → AreEdits entry_key 0 (2 ^ 64) bd → FreesUnused old bd refs next → AreRefs find es refs → AreRefs after new next
        → (key : ℕ) (e : BlockEntries) → entry_with entry_key key (edited entry_key old bd) ≡ Some e → sum_of (uses after key) new ≡ 0 → (sum_of (uses find key) es ≡ 0) × ((f : BlockEntries) × (entry_with entry_key key old ≡ Some f)) }
{}
