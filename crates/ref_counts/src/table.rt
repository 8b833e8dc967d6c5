//! The table of the numbers of references.
ghost use Rattle.std.specs.Prelude.{◌≡◌, ◌++◌, ℕ, List, All, OnOk, IfOk, option_to_list};
ghost use Rattle.data_tree.specs.Keys.{count_of};
ghost use Rattle.ref_counts.specs.Tables.{first, refs_in, HasKey, IsAscending};
ghost use Rattle.ref_counts.specs.Changes.{key_in, change_of, number_by, change_at, listed_of, AreAllChanges, AreRefChanges, HasRoomFor};

use crate::entries::{add_key, assign, drop_unused, number_in, tallied};
use std::alloc::{AllocError, Global};
use std::marker::Model;

/// How often each block is referred to, by keys that ascend strictly. A key that isn't there has 0.
#[derive(Drop)]
pub struct RefCounts {
    entries: Vec<(u64, u64)>,
    /// About how many entries have 0, to tell when they are to be dropped.
    unused: usize,
}

impl Model for RefCounts {
    ghost Value = { List (ℕ × ℕ) };

    ghost view = { λ table. table.entries.items };

    ghost invariant = { λ table. IsAscending first table.entries.items };
}

/// How a number of references changes: a key, and its numbers before and after.
#[derive(Clone, Copy, Debug, PartialEq, Eq)]
pub struct RefChange {
    pub key: u64,
    pub before: u64,
    pub after: u64,
}

impl RefCounts {
    /// The counts of keys, of which each stands there once for each reference.
    pub fn count(alloc: Global, keys: Vec<u64>) -> Result<RefCounts, AllocError>
        ensures { IfOk result (λ table. (key : ℕ) → refs_in table key ≡ count_of key keys.items) }
    {
        let entries = tallied(alloc, keys)?;
        Ok(RefCounts { entries, unused: 0 })
    }

    /// How often a key is referred to.
    pub fn get(&self, key: u64) -> u64
        ensures { result ≡ refs_in self.now key }
    {
        number_in(self.entries.as_slice(), key)
    }

    /// The keys whose numbers change where some references are taken and others put, ascending. A sum past 64 bits is answered as want of memory, which would come first.
    pub fn changes(
        &self,
        alloc: Global,
        taken: Vec<u64>,
        put: Vec<u64>,
    ) -> Result<Vec<RefChange>, AllocError>
        ensures { IfOk result (λ cs. AreRefChanges (refs_in self.now) taken.items put.items cs.items) }
    {
        changes_in(alloc, self.entries.as_slice(), taken, put)
    }

    /// Makes room for keys, so that `adopt` takes no memory. All numbers stay, after a failure too.
    pub fn make_room(&mut self, changes: &[RefChange]) -> Result<(), AllocError>
        requires { IsAscending key_in changes.now }
        ensures same { (key : ℕ) → refs_in self.new key ≡ refs_in self.old key }
        ensures room { OnOk result (HasRoomFor self.new changes.now) }
    {
        if self.unused > self.entries.len() / 2 {
            drop_unused(&mut self.entries);
            self.unused = 0;
        }
        let before = self.entries.len();
        let added = add_keys(&mut self.entries, changes);
        let more = self.entries.len().saturating_sub(before);
        self.unused = self.unused.saturating_add(more);
        added
    }

    /// Puts the numbers after changes for which there is room. Takes no memory.
    pub fn adopt(&mut self, changes: &[RefChange])
        ensures { HasRoomFor self.old changes.now → (key : ℕ) → refs_in self.new key ≡ number_by (change_of key changes.now) (refs_in self.old key) }
    {
        self.unused = unused_after(self.unused, changes);
        assign_all(self.entries.as_mut_slice(), changes);
    }
}

/// The change of a key, whether its number changes or not, by tables of references that are there, taken and put.
fn change_in(
    refs: &[(u64, u64)],
    taken: &[(u64, u64)],
    put: &[(u64, u64)],
    key: u64,
) -> Result<RefChange, AllocError>
    requires refs { IsAscending first refs.now }
    requires taken { IsAscending first taken.now }
    requires put { IsAscending first put.now }
    ensures { IfOk result (λ c. c ≡ change_at (refs_in refs.now) (refs_in taken.now) (refs_in put.now) key) }
{
    let before = number_in(refs, key);
    let left = before.saturating_sub(number_in(taken, key));
    match left.checked_add(number_in(put, key)) {
        Some(after) => Ok(RefChange { key, before, after }),
        None => Err(AllocError),
    }
}

/// Lists a change, where its number changes.
fn list_change(changes: &mut Vec<RefChange>, change: RefChange) -> Result<(), AllocError>
    ensures { OnOk result (changes.new.items ≡ changes.old.items ++ option_to_list (listed_of change)) }
{
    if change.before != change.after {
        changes.push(change)?;
    }
    Ok(())
}

/// The changes of those of some keys whose numbers change, by tables as in `change_in`.
fn changes_of(
    alloc: Global,
    refs: &[(u64, u64)],
    taken: &[(u64, u64)],
    put: &[(u64, u64)],
    touched: &[(u64, u64)],
) -> Result<Vec<RefChange>, AllocError>
    requires refs { IsAscending first refs.now }
    requires taken { IsAscending first taken.now }
    requires put { IsAscending first put.now }
    requires touched { IsAscending first touched.now }
    ensures { IfOk result (λ cs. AreAllChanges (refs_in refs.now) (refs_in taken.now) (refs_in put.now) touched.now cs.items) }
{
    let mut changes = Vec::new(alloc);
    for entry in touched {
        let change = change_in(refs, taken, put, entry.0)?;
        list_change(&mut changes, change)?;
    }
    Ok(changes)
}

/// The changes of the numbers of a table.
fn changes_in(
    alloc: Global,
    refs: &[(u64, u64)],
    taken: Vec<u64>,
    put: Vec<u64>,
) -> Result<Vec<RefChange>, AllocError>
    requires { IsAscending first refs.now }
    ensures { IfOk result (λ cs. AreRefChanges (refs_in refs.now) taken.items put.items cs.items) }
{
    let mut both = Vec::new(alloc);
    both.extend_from_slice(taken.as_slice())?;
    both.extend_from_slice(put.as_slice())?;
    let touched = tallied(alloc, both)?;
    let taken = tallied(alloc, taken)?;
    let put = tallied(alloc, put)?;
    changes_of(
        alloc,
        refs,
        taken.as_slice(),
        put.as_slice(),
        touched.as_slice(),
    )
}

/// Gives each key of these changes an entry.
fn add_keys(entries: &mut Vec<(u64, u64)>, changes: &[RefChange]) -> Result<(), AllocError>
    requires { IsAscending first entries.old.items }
    ensures ascend { IsAscending first entries.new.items }
    ensures same { (key : ℕ) → refs_in entries.new.items key ≡ refs_in entries.old.items key }
    ensures here { OnOk result (All (λ c. HasKey entries.new.items c.key) changes.now) }
{
    for change in changes {
        add_key(entries, change.key)?;
    }
    Ok(())
}

/// Puts the numbers after changes of keys that are there.
fn assign_all(entries: &mut [(u64, u64)], changes: &[RefChange])
    requires { IsAscending first entries.old }
    ensures ascend { IsAscending first entries.new }
    ensures numbers { HasRoomFor entries.old changes.now → (key : ℕ) → refs_in entries.new key ≡ number_by (change_of key changes.now) (refs_in entries.old key) }
{
    for change in changes {
        assign(entries, change.key, change.after);
    }
}

/// About how many entries have 0 after changes.
fn unused_after(unused: usize, changes: &[RefChange]) -> usize {
    let mut left = unused;
    for change in changes {
        if change.before == 0 {
            left = left.saturating_sub(1);
        }
        if change.after == 0 {
            left = left.saturating_add(1);
        }
    }
    left
}
