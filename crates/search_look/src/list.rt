//! The list of a search folder.
ghost use Rattle.std.specs.Prelude.{IfErr};
ghost use Rattle.search_look.specs.Looking.{Finds, IsCalm, IsList, IsNoList};

use crate::stops::SearchStop;
use node_port::NodeRec;
use pst_base::Nid;
use std::alloc::Global;
use tree_look::table_of;

/// Looks at the list of a search, the node with this id: a table.
pub(crate) fn check_list(alloc: Global, nid: Nid, node: &NodeRec) -> Result<(), SearchStop>
    ensures found { Finds (λ u. IsList node.now) (IsNoList nid node.now) result }
    ensures calm { IfErr result IsCalm }
{
    match table_of(alloc, node) {
        Ok(_) => Ok(()),
        Err(why) => Err(SearchStop::formless(nid, why)),
    }
}
