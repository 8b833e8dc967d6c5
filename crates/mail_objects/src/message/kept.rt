//! The subnodes that a message keeps.
ghost use Rattle.std.specs.Prelude.{◌≡◌, ℕ, false, IfOk};
ghost use Rattle.std.specs.Ordering.{nat_cmp};
ghost use Rattle.std.specs.BTreeSet.{contains};
ghost use Rattle.mapi_values.specs.Messages.{is_own};
ghost use Rattle.node_values.specs.Subnodes.{without};

use crate::message::ids::{NID_ATTACHMENT_TABLE, NID_RECIPIENT_TABLE};
use mapi_values::Part;
use pst_base::Subs;
use std::alloc::{AllocError, Global};
use std::collections::BTreeSet;

/// The ids of the subnodes that a message has for itself: its tables and its attachments.
fn own_ids(alloc: Global, parts: &[Part]) -> Result<BTreeSet<u32>, AllocError>
    ensures { IfOk result (λ ids. (nid : ℕ) → contains nat_cmp ids nid ≡ is_own parts.now nid) }
{
    let mut ids = BTreeSet::new(alloc);
    ids.insert(NID_ATTACHMENT_TABLE)?;
    ids.insert(NID_RECIPIENT_TABLE)?;
    for part in parts {
        ids.insert(part.nid.bits)?;
    }
    Ok(ids)
}

/// The subnodes that a message with these attachments doesn't have for itself, each with what stands below it.
pub fn without_own(alloc: Global, rest: Subs, parts: &[Part]) -> Result<Subs, AllocError>
    ensures { IfOk result (λ kept. kept ≡ without (is_own parts.now) false rest) }
{
    let own = own_ids(alloc, parts)?;
    let mut kept = Vec::new(alloc);
    for sub in rest.into_vec() {
        if !own.contains(&sub.nid.bits) {
            kept.push(sub)?;
        }
    }
    Ok(Subs::from_vec(kept))
}
