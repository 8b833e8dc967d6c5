//! From nodes to the tree that they show.
ghost use Rattle.std.specs.Prelude.{◌≡◌, ℕ, List};
ghost use Rattle.node_port.specs.Nodes.{Nodes, node_at};
ghost use Rattle.mail_tree.specs.declared.places.FolderPlace.{FolderPlace};
ghost use Rattle.mail_tree.specs.Flags.{AreFlags, FlagList};
ghost use Rattle.mail_tree.specs.Found.{IsFound};
ghost use Rattle.mail_tree.specs.Standing.{HasTree};
ghost use Rattle.mail_tree.specs.Tree.{StandsAt, Tree, object_at};
ghost use Rattle.mail_tree.specs.Whole.{IsWhole};
ghost use Rattle.tree_look.specs.Seeing.{AreListed};
ghost use Rattle.tree_look.specs.Shows.{Shows};

/// Nodes that have a tree, whose folders stand at these places, show one with these places and any counters; it is whole, and an opening finds it.
pub fn shows_tree()
    ensures { (N : Nodes) (places : List FolderPlace) (last : List ℕ) → HasTree N places → (T : Tree) × (T.places ≡ places) × (T.last ≡ last) × Shows N T × IsWhole T × IsFound T }
{}

/// Nodes show at most one tree with the same counters.
pub fn one_tree()
    ensures { (N : Nodes) (T U : Tree) → Shows N T → Shows N U → T.last ≡ U.last → T ≡ U }
{}

/// Nodes of a whole tree that an opening finds show that very tree.
pub fn shows_found()
    ensures { (N : Nodes) (T : Tree) → IsWhole T → IsFound T → ((q : ℕ) → StandsAt q (node_at N q) (object_at T q) (node_at T.others q)) → Shows N T }
{}

/// What a look knows of the messages and folders of these nodes is so of the tree that they show.
pub fn shows_flags()
    ensures { (N : Nodes) (T : Tree) (flags : FlagList) → Shows N T → AreListed N T.places flags → AreFlags (object_at T) flags }
{}
