//! What follows of adding a name.
ghost use Rattle.std.specs.Prelude.{◌≡◌, ℕ, ◌+◌, List, false, true};
ghost use Rattle.named_props.specs.declared.names.Names.{Names};
ghost use Rattle.named_props.specs.Finding.{guids_known, is_property_named, name_at};
ghost use Rattle.named_props.specs.Adding.{added, next_index};

/// Laws of names whose entries name no index that no GUID has: a name that was added is found, with the property that it got, and each name that was there keeps its property. The property that a new name gets had no name.
pub fn finds_what_was_added()
    ensures found { (n : Names) (guid : List ℕ) (number : ℕ) → guids_known n.guids n.entries ≡ true
        → name_at n.guids n.entries guid number ≡ None
        → name_at (added n guid number).guids (added n guid number).entries guid number ≡ Some (0x8000 + next_index n.entries) }
    ensures kept { (n : Names) (guid other : List ℕ) (number id property : ℕ) → guids_known n.guids n.entries ≡ true
        → name_at n.guids n.entries other id ≡ Some property
        → name_at (added n guid number).guids (added n guid number).entries other id ≡ Some property }
    ensures unnamed { (n : Names) → is_property_named n.entries (0x8000 + next_index n.entries) ≡ false }
{}
