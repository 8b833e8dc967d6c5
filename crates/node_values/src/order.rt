//! The order of subnodes.
ghost use Rattle.std.specs.Prelude.{◌≡◌};
ghost use Rattle.node_values.specs.Subnodes.{ids_ascend};

use pst_base::Subs;

/// Whether the ids of the subnodes ascend strictly, as they do in every node.
pub fn ids_ascend(subs: &Subs) -> bool
    ensures { result ≡ ids_ascend 0 subs.now }
{
    let mut low = 0u64;
    for sub in subs.as_slice() {
        if u64::from(sub.nid.bits) < low {
            return false;
        }
        low = u64::from(sub.nid.bits) + 1;
    }
    true
}
