//! What pages of one level come to, joined until it is packed into new pages.
ghost use Rattle.std.specs.Prelude.{◌≡◌, ◌⊎◌, ◌≤◌, ◌<◌, ◌^◌, ◌++◌, [], true, false, Some, None, map, IfOk, IfSome, OnOk};
ghost use Rattle.tree_edit.specs.Joins.{Makes, Moves, Settles, kept_child, size_of};
ghost use Rattle.tree_edit.specs.Plans.{AreKeys, AreWritable, keys_of};
ghost use Rattle.tree_edit.specs.Shapes.{RiseIn};

use crate::pack::{pack_inners, pack_leaves};
use crate::page::Seat;
use crate::plan::{Child, PlanPage};
use btree_pages::Entry;
use std::alloc::{AllocError, Global};

/// What pages come to: the entries of leaves, or the children of inner pages.
#[derive(Drop)]
pub(crate) struct Content<E> {
    pub(crate) entries: Vec<E>,
    pub(crate) children: Vec<(u64, Child)>,
}

/// The last of some children: one that stays, which what is behind it may still join, and then what those behind it come to.
#[derive(Drop)]
pub(crate) struct Held<E> {
    pub(crate) kept: Option<Seat>,
    pub(crate) content: Content<E>,
}

/// A child that stays, if there is one, with nothing behind it.
pub(crate) fn held_child<E: Entry>(alloc: Global, kept: Option<Seat>) -> Held<E>
    ensures kept { result.kept ≡ kept }
    ensures entries { result.content.entries.items ≡ [] }
    ensures children { result.content.children.items ≡ [] }
{
    Held {
        kept,
        content: Content {
            entries: Vec::new(alloc),
            children: Vec::new(alloc),
        },
    }
}

/// How many entries or children a content of pages of a level has.
fn count<E: Entry>(level: u8, content: &Content<E>) -> usize
    ensures { result ≡ size_of level content.now.entries.items content.now.children.items }
{
    if level == 0 {
        content.entries.len()
    } else {
        content.children.len()
    }
}

/// Whether a child with so many edits stays: without edits, where nothing is held that is too small for a page.
pub(crate) fn stays<E: Entry>(level: u8, least: usize, content: &Content<E>, edits: usize) -> bool
    ensures stays { result ≡ true → edits ≡ 0 }
    ensures reads { result ≡ false → (1 ≤ edits) ⊎ ((1 ≤ size_of level content.now.entries.items content.now.children.items) × (size_of level content.now.entries.items content.now.children.items < least)) }
{
    let n = count(level, content);
    edits == 0 && (n == 0 || n >= least)
}

/// The child that stays, where what is held behind it is too small for a page.
pub(crate) fn reached<E: Entry>(level: u8, least: usize, held: &Held<E>) -> Option<Seat>
    ensures kept { IfSome result (λ seat. held.now.kept ≡ Some seat) }
    ensures some { IfSome result (λ _. 1 ≤ size_of level held.now.content.entries.items held.now.content.children.items) }
    ensures few { IfSome result (λ _. size_of level held.now.content.entries.items held.now.content.children.items < least) }
{
    let n = count(level, &held.content);
    if n > 0 && n < least { held.kept } else { None }
}

/// One content behind the other.
fn joined<E: Entry>(first: Content<E>, behind: Content<E>) -> Result<Content<E>, AllocError>
    ensures entries { IfOk result (λ both. both.entries.items ≡ first.entries.items ++ behind.entries.items) }
    ensures children { IfOk result (λ both. both.children.items ≡ first.children.items ++ behind.children.items) }
{
    let mut both = first;
    let mut more = behind;
    both.entries.append(&mut more.entries)?;
    both.children.append(&mut more.children)?;
    Ok(both)
}

/// What is held, with what the child that stayed comes to in front of it.
pub(crate) fn in_front<E: Entry>(first: Content<E>, held: Held<E>) -> Result<Held<E>, AllocError>
    ensures kept { IfOk result (λ now. now.kept ≡ None) }
    ensures entries { IfOk result (λ now. now.content.entries.items ≡ first.entries.items ++ held.content.entries.items) }
    ensures children { IfOk result (λ now. now.content.children.items ≡ first.children.items ++ held.content.children.items) }
{
    let content = joined(first, held.content)?;
    Ok(Held {
        kept: None,
        content,
    })
}

/// Puts the child that stays behind others, if there is one.
fn push_kept(kept: Option<Seat>, out: &mut Vec<(u64, Child)>) -> Result<(), AllocError>
    ensures { OnOk result (out.new.items ≡ out.old.items ++ kept_child kept) }
{
    if let Some(seat) = kept {
        out.push((seat.key, Child::Old(seat.at)))?;
    }
    Ok(())
}

/// The new pages of a content.
fn packed<E: Entry>(
    alloc: Global,
    level: u8,
    content: &Content<E>,
    pages: &mut Vec<PlanPage<E>>,
) -> Result<Vec<(u64, Child)>, AllocError>
    requires level { level ≤ 7 }
    requires entries { RiseIn 0 (2 ^ 64) (map E.key content.now.entries.items) }
    requires children { RiseIn 0 (2 ^ 64) (keys_of content.now.children.items) }
    requires keys { AreKeys E.rule (keys_of content.now.children.items) }
    ensures writable { IfOk result (λ _. AreWritable E.key E.rule E.size pages.old.items → AreWritable E.key E.rule E.size pages.new.items) }
    ensures makes { IfOk result (λ cs. Makes E.key E.rule E.size level pages.old.items pages.new.items content.now.entries.items content.now.children.items cs.items) }
{
    if level == 0 {
        let leaves = pack_leaves(alloc, content.entries.as_slice(), pages)?;
        return Ok(leaves);
    }
    let inners = pack_inners(alloc, level, content.children.as_slice(), pages)?;
    Ok(inners)
}

/// Puts what is held behind others: the child that stays, and the new pages of the content.
pub(crate) fn settle<E: Entry>(
    alloc: Global,
    level: u8,
    held: Held<E>,
    out: &mut Vec<(u64, Child)>,
    pages: &mut Vec<PlanPage<E>>,
) -> Result<(), AllocError>
    requires level { level ≤ 7 }
    requires entries { RiseIn 0 (2 ^ 64) (map E.key held.content.entries.items) }
    requires children { RiseIn 0 (2 ^ 64) (keys_of held.content.children.items) }
    requires keys { AreKeys E.rule (keys_of held.content.children.items) }
    ensures writable { OnOk result (AreWritable E.key E.rule E.size pages.old.items → AreWritable E.key E.rule E.size pages.new.items) }
    ensures settles { OnOk result (Settles E.key E.rule E.size level pages.old.items pages.new.items held.kept held.content.entries.items held.content.children.items out.old.items out.new.items) }
{
    push_kept(held.kept, out)?;
    let mut pieces = packed(alloc, level, &held.content, pages)?;
    out.append(&mut pieces)?;
    Ok(())
}

/// What is held once the next child has come to a content: both contents, where one of them is too small for a page, else the new one alone, and then what was held is put behind others.
pub(crate) fn behind<E: Entry>(
    alloc: Global,
    level: u8,
    least: usize,
    held: Held<E>,
    more: Content<E>,
    out: &mut Vec<(u64, Child)>,
    pages: &mut Vec<PlanPage<E>>,
) -> Result<Held<E>, AllocError>
    requires level { level ≤ 7 }
    requires entries { RiseIn 0 (2 ^ 64) (map E.key held.content.entries.items) }
    requires children { RiseIn 0 (2 ^ 64) (keys_of held.content.children.items) }
    requires keys { AreKeys E.rule (keys_of held.content.children.items) }
    ensures writable { IfOk result (λ _. AreWritable E.key E.rule E.size pages.old.items → AreWritable E.key E.rule E.size pages.new.items) }
    ensures moves { IfOk result (λ now. Moves E.key E.rule E.size level least pages.old.items pages.new.items held.kept held.content.entries.items held.content.children.items more.entries.items more.children.items out.old.items out.new.items now.kept now.content.entries.items now.content.children.items) }
{
    if count(level, &held.content) < least || count(level, &more) < least {
        let content = joined(held.content, more)?;
        return Ok(Held {
            kept: held.kept,
            content,
        });
    }
    settle(alloc, level, held, out, pages)?;
    Ok(Held {
        kept: None,
        content: more,
    })
}
