//! What follows of the definitions on the searches that nodes have.
ghost use Rattle.std.specs.Prelude.{ℕ, List};
ghost use Rattle.node_port.specs.Nodes.{Nodes};
ghost use Rattle.mail_tree.specs.declared.places.FolderPlace.{FolderPlace};
ghost use Rattle.mail_searches.specs.Searches.{Search};
ghost use Rattle.search_look.specs.Having.{HasSearches};
ghost use Rattle.search_look.specs.Faults.{HasSearchFault};
ghost use Rattle.search_look.specs.declared.stops.SearchRefusal.{SearchRefusal};

/// What is wrong with a search excludes that the nodes have searches.
pub fn fault_excludes()
    ensures { (N : Nodes) (places : List FolderPlace) (refusal : SearchRefusal) → HasSearchFault N places refusal → (own : List ℕ) (searches : List Search) → HasSearches N places own searches → ⊥ }
{}
