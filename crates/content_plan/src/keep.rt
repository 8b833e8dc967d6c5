//! Which data blocks stay where they are.
ghost use Rattle.std.specs.Prelude.{◌≡◌, ℕ, List, IfOk, OnOk};
ghost use Rattle.content_plan.specs.Keep.{HasKeys, kept_list, kept_one, keys_with, may_stay, same_bytes};

use pst_base::{Bid, Bytes};
use std::alloc::{AllocError, Global};
use std::collections::BTreeSet;

/// Whether the bytes are the same.
fn same_bytes(a: &[u8], b: &[u8]) -> bool
    ensures { result ≡ same_bytes a.now b.now }
{
    a == b
}

/// Whether it is the id of a data block, with a key above 0 and below a number.
#[tactic(auto, unfolding(crate::specs::Keep::may_stay))]
fn may_stay(next: u64, bid: Bid) -> bool
    ensures { result ≡ may_stay next bid }
{
    !bid.internal() && bid.bits >= 2 && bid.bits < next
}

/// The id of the block that stays at a position, where one had this id and these bytes, and others are put. Those that stay before it have these keys.
fn kept_one(next: u64, keys: &BTreeSet<u64>, id: Option<Bid>, was: &[u8], now: &[u8]) -> Option<Bid>
    ensures { (ks : List ℕ) → HasKeys keys.now ks → result ≡ kept_one next ks id was.now now.now }
{
    let bid = id?;
    if may_stay(next, bid) && !keys.contains(&bid.key()) && same_bytes(was, now) {
        Some(bid)
    } else {
        None
    }
}

/// Puts the key of a block that stays behind others, if one does.
pub(crate) fn push_key(keys: &mut Vec<u64>, id: Option<Bid>) -> Result<(), AllocError>
    ensures { OnOk result (keys.new.items ≡ keys_with keys.old.items id) }
{
    let Some(bid) = id else {
        return Ok(());
    };
    keys.push(bid.key())?;
    Ok(())
}

/// Puts the key of a block that stays into the set of the others' keys, if one does.
fn put_key(keys: &mut BTreeSet<u64>, id: Option<Bid>) -> Result<(), AllocError>
    ensures { OnOk result ((ks : List ℕ) → HasKeys keys.old ks → HasKeys keys.new (keys_with ks id)) }
{
    if let Some(bid) = id {
        keys.insert(bid.key())?;
    }
    Ok(())
}

/// The ids that stay of data with these ids and bytes, where others are put.
pub(crate) fn kept_list(
    alloc: Global,
    next: u64,
    ids: &[Option<Bid>],
    was: &[Bytes],
    now: &[Bytes],
) -> Result<Vec<Option<Bid>>, AllocError>
    ensures { IfOk result (λ keep. keep.items ≡ kept_list next ids.now was.now now.now) }
{
    let mut keep = Vec::new(alloc);
    let mut keys = BTreeSet::new(alloc);
    let len = ids.len().min(was.len()).min(now.len());
    for i in 0..len {
        let one = kept_one(next, &keys, ids[i], was[i].as_slice(), now[i].as_slice());
        put_key(&mut keys, one)?;
        keep.push(one)?;
    }
    Ok(keep)
}
