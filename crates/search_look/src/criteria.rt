//! The criteria object of a search folder.
ghost use Rattle.std.specs.Prelude.{◌≡◌, ◌<◌, ◌^◌, ℕ, List, get_or, length, IfErr, None, Some};
ghost use Rattle.mail_tree.specs.Values.{bytes_of};
ghost use Rattle.mail_searches.specs.Searches.{criteria_of};
ghost use Rattle.search_obj.specs.Objects.{IsFaulty};
ghost use Rattle.search_look.specs.Looking.{Finds, IsCalm, LacksCriteria, TellsOwn};
ghost use Rattle.search_look.specs.declared.stops.SearchRefusal.TheVariants.{Criteria as NoCriteria};
ghost use Rattle.search_look.specs.declared.stops.SearchStop.TheVariants.{Refused};

use crate::stops::{SearchRefusal, SearchStop};
use mail_objects::read_context;
use mapi_values::Props;
use mapi_values::tags::PTYP_BINARY;
use node_port::{KeepStop, NodeRec};
use pst_base::{MemOr, Nid};
use search_obj::{Criteria, SEARCH_RESTRICTION, SEARCH_SCOPE, read_search};
use std::alloc::Global;
use tree_look::mail_draft::bytes_of;

/// How many bytes these are.
fn byte_count(bytes: &[u8]) -> usize
    ensures { (i : ℕ) → get_or bytes.now i 0 < 256 }
{
    // Each is one of a slice, and so fits 8 bits.
    bytes.len()
}

/// How many bytes the binary value of this id has, if it is one.
fn binary_len(props: &Props, id: u16) -> Option<usize>
    ensures { (b : List ℕ) → bytes_of id 0x0102 props.now ≡ Some b → ((i : ℕ) → get_or b i 0 < 256) × (length b < 2 ^ 32) }
{
    let bytes = bytes_of(props, id, PTYP_BINARY)?;
    Some(byte_count(bytes))
}

/// The stop where a criteria object is marked, and says no criteria.
fn faulty(nid: Nid, props: &Props) -> SearchStop
    requires { IsFaulty props.now }
    ensures stop { result ≡ Refused (NoCriteria nid) }
    ensures none { criteria_of props.now ≡ None }
{
    // That what stands there are bytes, and not too many, is known once they are looked at.
    let _restriction = binary_len(props, SEARCH_RESTRICTION.id);
    let _scope = binary_len(props, SEARCH_SCOPE.id);
    SearchStop::Refused(SearchRefusal::Criteria { nid })
}

/// The criteria that the node with this id says, or `None` where it isn't the criteria object of a search of the store's own: it is no property context as a whole, or its values have no mark.
pub(crate) fn read_own(
    alloc: Global,
    nid: Nid,
    node: &NodeRec,
) -> Result<Option<Criteria>, SearchStop>
    ensures found { Finds (TellsOwn node.now) (LacksCriteria nid node.now) result }
    ensures calm { IfErr result IsCalm }
{
    let Some(context) = read_context(alloc, node)? else {
        return Ok(None);
    };
    match read_search(alloc, context.props()) {
        Ok(told) => Ok(told),
        Err(MemOr::Memory) => Err(SearchStop::Kept(KeepStop::Memory)),
        Err(MemOr::Refused(_)) => Err(faulty(nid, context.props())),
    }
}
