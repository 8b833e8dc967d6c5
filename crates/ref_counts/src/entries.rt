//! Numbers by keys that ascend strictly.
ghost use Rattle.std.specs.Prelude.{◌≡◌, ◌==◌, ◌<◌, ◌≤◌, ◌+◌, ◌^◌, ℕ, if◌then◌else◌, take, drop, length, OnOk, IfOk, IfErr};
ghost use Rattle.data_tree.specs.Keys.{count_of};
ghost use Rattle.ref_counts.specs.Tables.{first, refs_in, Rises, IsAscending, HasKey, KeepsKeys, StandsAt, IsMissing};

use std::alloc::{AllocError, Global};

/// Where the entry of a key stands, or is to stand.
fn place(entries: &[(u64, u64)], key: u64) -> usize
    requires { IsAscending first entries.now }
    ensures within { result ≤ length entries.now }
    ensures below { Rises first 0 key (take result entries.now) }
    ensures above { Rises first key (2 ^ 64) (drop result entries.now) }
{
    entries.partition_point(|entry| entry.0 < key)
}

/// Where the entry of a key stands; `Err` says where it is to stand, if it isn't there.
fn seat(entries: &[(u64, u64)], key: u64) -> Result<usize, usize>
    requires { IsAscending first entries.now }
    ensures there { IfOk result (StandsAt entries.now key) }
    ensures missing { IfErr result (IsMissing entries.now key) }
{
    let at = place(entries, key);
    if at >= entries.len() {
        return Err(at);
    }
    if entries[at].0 == key {
        Ok(at)
    } else {
        Err(at)
    }
}

/// The number of a key.
pub(crate) fn number_in(entries: &[(u64, u64)], key: u64) -> u64
    requires { IsAscending first entries.now }
    ensures { result ≡ refs_in entries.now key }
{
    match seat(entries, key) {
        Ok(at) => entries[at].1,
        Err(_) => 0,
    }
}

/// Puts the number of a key that is there; another is passed over.
pub(crate) fn assign(entries: &mut [(u64, u64)], key: u64, number: u64)
    requires { IsAscending first entries.old }
    ensures ascend { IsAscending first entries.new }
    ensures number { HasKey entries.old key → (other : ℕ) → refs_in entries.new other ≡ (if key == other then number else refs_in entries.old other) }
    ensures kept { (other : ℕ) → HasKey entries.old other → HasKey entries.new other }
{
    match seat(entries, key) {
        Ok(at) => entries[at] = (key, number),
        Err(_) => {}
    }
}

/// Gives a key an entry, if it has none, with the number 0.
pub(crate) fn add_key(entries: &mut Vec<(u64, u64)>, key: u64) -> Result<(), AllocError>
    requires { IsAscending first entries.old.items }
    ensures ascend { IsAscending first entries.new.items }
    ensures keeps { KeepsKeys entries.old.items entries.new.items }
    ensures has { OnOk result (HasKey entries.new.items key) }
{
    match seat(entries.as_slice(), key) {
        Ok(_) => Ok(()),
        Err(at) => Ok(entries.insert(at, (key, 0))?),
    }
}

/// Drops the entries whose number is 0.
pub(crate) fn drop_unused(entries: &mut Vec<(u64, u64)>)
    requires { IsAscending first entries.old.items }
    ensures ascend { IsAscending first entries.new.items }
    ensures same { (key : ℕ) → refs_in entries.new.items key ≡ refs_in entries.old.items key }
{
    entries.retain(|entry| entry.1 != 0);
}

/// Counts one reference more to a key.
fn add_one(entries: &mut Vec<(u64, u64)>, key: u64) -> Result<(), AllocError>
    requires ascend { IsAscending first entries.old.items }
    requires small { refs_in entries.old.items key + 1 < 2 ^ 64 }
    ensures ascend { IsAscending first entries.new.items }
    ensures number { OnOk result ((other : ℕ) → refs_in entries.new.items other ≡ (if key == other then 1 else 0) + refs_in entries.old.items other) }
{
    match seat(entries.as_slice(), key) {
        Ok(at) => {
            let number = entries[at].1;
            entries[at] = (key, number + 1);
            Ok(())
        }
        Err(at) => Ok(entries.insert(at, (key, 1))?),
    }
}

/// How often each key stands among these.
pub(crate) fn tallied(alloc: Global, mut keys: Vec<u64>) -> Result<Vec<(u64, u64)>, AllocError>
    ensures ascend { IfOk result (λ entries. IsAscending first entries.items) }
    ensures numbers { IfOk result (λ entries. (key : ℕ) → refs_in entries.items key ≡ count_of key keys.items) }
{
    // In order each new key stands behind the others.
    keys.sort_unstable();
    let mut entries = Vec::new(alloc);
    for key in &keys {
        add_one(&mut entries, *key)?;
    }
    Ok(entries)
}
