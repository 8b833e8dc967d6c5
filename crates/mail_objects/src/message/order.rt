//! Subnodes in the order of their ids.
ghost use Rattle.std.specs.Prelude.{◌≡◌, ◌≤◌, ℕ, true, length, IfOk};
ghost use Rattle.std.specs.Ordering.{nat_cmp};
ghost use Rattle.std.specs.BTreeMap.{get, btree_map_len};
ghost use Rattle.mapi_values.specs.Keyed.{find_key, keys_ascend};
ghost use Rattle.node_port.specs.Stops.{subs_size};
ghost use Rattle.node_values.specs.Subnodes.{sub_id};
ghost use Rattle.pst_base.specs.Subs.{flattened};

use pst_base::Sub;
use std::alloc::{AllocError, Global};
use std::collections::BTreeMap;

/// The first subnode of each id.
fn by_id(alloc: Global, subs: Vec<Sub>) -> Result<BTreeMap<u32, Sub>, AllocError>
    ensures found { IfOk result (λ map. (nid : ℕ) → get nat_cmp map nid ≡ find_key sub_id nid subs.items) }
    ensures len { IfOk result (λ map. btree_map_len map ≤ length subs.items) }
{
    let mut subs = subs;
    let mut map = BTreeMap::new(alloc);
    while let Some(sub) = subs.pop() {
        map.insert(sub.nid.bits, sub)?;
    }
    Ok(map)
}

/// Subnodes in the order of their ids. Where some have the same id, the first of them stays.
pub fn in_order(alloc: Global, subs: Vec<Sub>) -> Result<Vec<Sub>, AllocError>
    ensures found { IfOk result (λ sorted. (nid : ℕ) → find_key sub_id nid sorted.items ≡ find_key sub_id nid subs.items) }
    ensures ascend { IfOk result (λ sorted. keys_ascend sub_id 0 sorted.items ≡ true) }
    ensures len { IfOk result (λ sorted. length sorted.items ≤ length subs.items) }
    ensures size { IfOk result (λ sorted. subs_size (flattened sorted.items) ≤ subs_size (flattened subs.items)) }
{
    let map = by_id(alloc, subs)?;
    let mut sorted = Vec::with_capacity(alloc, map.len())?;
    for (_, sub) in map {
        sorted.push(sub)?;
    }
    Ok(sorted)
}
