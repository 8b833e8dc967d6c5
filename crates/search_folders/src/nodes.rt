//! The ids of a search folder's nodes, beside that of its list.
ghost use Rattle.std.specs.Prelude.{◌≡◌};
ghost use Rattle.mail_searches.specs.Searches.{criteria_node, updates};

use pst_base::{Nid, make_nid};

/// The node of a search's updates.
pub(crate) fn updates(search: Nid) -> Nid
    ensures { result.bits ≡ updates search.bits }
{
    make_nid(0x06, search.index())
}

/// The criteria object of a search.
pub(crate) fn criteria_node(search: Nid) -> Nid
    ensures { result.bits ≡ criteria_node search.bits }
{
    make_nid(0x07, search.index())
}
