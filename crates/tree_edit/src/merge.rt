//! Entries after edits.
ghost use Rattle.std.specs.Prelude.{◌≡◌, ◌≤◌, ◌^◌, ◌++◌, [], map, drop, length, IfOk, OnOk};
ghost use Rattle.tree_edit.specs.Shapes.{RiseIn};
ghost use Rattle.tree_edit.specs.Edits.{edited, given, under, over};

use btree_pages::{Entry, TreePage};
use std::alloc::{AllocError, Global};

/// Puts the entries below a key, from a place on, behind others. Gives the place of the first that is above the key.
fn push_under<E: Entry>(
    entries: &[E],
    from: usize,
    key: u64,
    out: &mut Vec<E>,
) -> Result<usize, AllocError>
    requires within { from ≤ length entries.now }
    requires rises { RiseIn 0 (2 ^ 64) (map E.key entries.now) }
    ensures within { IfOk result (λ i. i ≤ length entries.now) }
    ensures under { IfOk result (λ _. out.new.items ≡ out.old.items ++ under E.key key (drop from entries.now)) }
    ensures over { IfOk result (λ i. drop i entries.now ≡ over E.key key (drop from entries.now)) }
{
    let count = entries.len();
    let mut i = from;
    while i < count {
        let entry = entries[i];
        let here = entry.key();
        if here > key {
            return Ok(i);
        }
        if here == key {
            return Ok(i + 1);
        }
        out.push(entry)?;
        i += 1;
    }
    Ok(i)
}

/// Puts the entries of a leaf behind others.
pub(crate) fn push_leaf<E: Entry>(page: &TreePage<E>, out: &mut Vec<E>) -> Result<(), AllocError>
    requires leaf { page.now.level ≡ 0 }
    ensures { OnOk result (out.new.items ≡ out.old.items ++ map E.entry_of page.now.entries) }
{
    for i in 0..page.count() {
        out.push(page.leaf(i))?;
    }
    Ok(())
}

/// Puts an entry that may be there behind others.
fn push_given<E: Entry>(entry: Option<E>, out: &mut Vec<E>) -> Result<(), AllocError>
    ensures { OnOk result (out.new.items ≡ out.old.items ++ given entry) }
{
    match entry {
        Some(entry) => {
            out.push(entry)?;
            Ok(())
        }
        None => Ok(()),
    }
}

/// Entries after edits.
pub(crate) fn merged<E: Entry>(
    alloc: Global,
    entries: &[E],
    edits: &[(u64, Option<E>)],
) -> Result<Vec<E>, AllocError>
    requires rises { RiseIn 0 (2 ^ 64) (map E.key entries.now) }
    ensures { IfOk result (λ made. made.items ≡ edited E.key entries.now edits.now) }
{
    let mut out = Vec::new(alloc);
    let mut i = 0;
    for edit in edits {
        i = push_under(entries, i, edit.0, &mut out)?;
        push_given(edit.1, &mut out)?;
    }
    out.extend_from_slice(&entries[i..])?;
    Ok(out)
}

/// The entries of a leaf after edits.
pub(crate) fn merged_leaf<E: Entry>(
    alloc: Global,
    page: &TreePage<E>,
    edits: &[(u64, Option<E>)],
) -> Result<Vec<E>, AllocError>
    requires leaf { page.now.level ≡ 0 }
    requires rises { RiseIn 0 (2 ^ 64) (map E.key (map E.entry_of page.now.entries)) }
    ensures { IfOk result (λ made. made.items ≡ edited E.key (map E.entry_of page.now.entries) edits.now) }
{
    let mut entries = Vec::new(alloc);
    push_leaf(page, &mut entries)?;
    let made = merged(alloc, entries.as_slice(), edits)?;
    Ok(made)
}

/// The entries that edits put into an empty tree.
pub(crate) fn given_entries<E: Entry>(
    alloc: Global,
    edits: &[(u64, Option<E>)],
) -> Result<Vec<E>, AllocError>
    ensures { IfOk result (λ entries. entries.items ≡ edited E.key [] edits.now) }
{
    let mut out = Vec::new(alloc);
    for edit in edits {
        push_given(edit.1, &mut out)?;
    }
    Ok(out)
}
