//! From nodes to the tree with searches that they show.
ghost use Rattle.std.specs.Prelude.{◌≡◌, ℕ, List};
ghost use Rattle.node_port.specs.Nodes.{Nodes};
ghost use Rattle.mail_tree.specs.declared.places.FolderPlace.{FolderPlace};
ghost use Rattle.mail_tree.specs.Flags.{AreFlags, FlagList};
ghost use Rattle.mail_tree.specs.Standing.{HasTree};
ghost use Rattle.mail_tree.specs.Tree.{object_at};
ghost use Rattle.mail_searches.specs.Searches.{KnowsMessages, Search};
ghost use Rattle.mail_searches.specs.Searching.{Searching};
ghost use Rattle.search_look.specs.Having.{HasSearches};
ghost use Rattle.tree_look.specs.Seeing.{AreKnown, AreListed};
ghost use Rattle.search_look.specs.Showing.{ShowsSearches};

/// Nodes that have a tree, whose folders stand at these places, and these searches, show a tree with them and any counters.
pub fn shows_searches()
    ensures { (N : Nodes) (places : List FolderPlace) (last : List ℕ) (own : List ℕ) (searches : List Search) → HasTree N places → HasSearches N places own searches → (X : Searching) × (X.tree.places ≡ places) × (X.tree.last ≡ last) × (X.own ≡ own) × (X.searches ≡ searches) × ShowsSearches N X }
{}

/// Nodes that show a tree with searches have that tree.
pub fn has_tree()
    ensures { (N : Nodes) (X : Searching) → ShowsSearches N X → HasTree N X.tree.places }
{}

/// They have its searches.
pub fn has_searches()
    ensures { (N : Nodes) (X : Searching) → ShowsSearches N X → HasSearches N X.tree.places X.own X.searches }
{}

/// What a look knows of the messages and folders of these nodes is so of the tree that they show.
pub fn search_flags()
    ensures { (N : Nodes) (X : Searching) (flags : FlagList) → ShowsSearches N X → AreListed N X.tree.places flags → AreFlags (object_at X.tree) flags }
{}

/// Where a look knows something of each message that plain folders list, it knows something of each message of the tree that the nodes show.
pub fn knows_messages()
    ensures { (N : Nodes) (X : Searching) (flags : FlagList) → ShowsSearches N X → AreKnown N X.tree.places flags → KnowsMessages X.tree flags }
{}

/// Nodes show at most one tree with searches and the same counters.
pub fn one_searching()
    ensures { (N : Nodes) (X Y : Searching) → ShowsSearches N X → ShowsSearches N Y → X.tree.last ≡ Y.tree.last → X ≡ Y }
{}
