//! A tree's pages, written level by level.
ghost use Rattle.std.specs.Prelude.{◌≡◌, ◌≤◌, ◌<◌, ◌/◌, ◌^◌, IfOk, IfErr, OnOk, Err, length, map};
ghost use Rattle.pst_outside.specs.Calls.{Rose};
ghost use Rattle.copy_part.specs.Keeps.{KeepsSource};
ghost use Rattle.tree_edit.specs.Plans.{AreKeys};
ghost use Rattle.tree_edit.specs.Shapes.{RiseIn, inner, leaf};
ghost use Rattle.packed_tree.specs.Packed.{children, first_of, groups, head};
ghost use Rattle.packed_tree.specs.Shown.{keys, kids};
ghost use Rattle.copy_pieces.specs.Stops.{StopsCopy};
ghost use Rattle.copy_trees.specs.Levels.{AreLevels, pages_for};
ghost use Rattle.copy_trees.specs.Writes.{PutsPages, PutsTree, form};

use crate::planning::{CHILDREN, TreePages, leaf_room};
use btree_pages::{Entry, Inner};
use copy_part::put;
use copy_pieces::CompactStop;
use packed_tree::{inner_page, leaf_page};
use pst_base::Bref;
use pst_outside::Outside;
use std::alloc::Global;

/// The key by which a leaf of these entries is named: that of the first, or 0 where there is none.
fn first_key<E: Entry>(entries: &[E]) -> u64
    ensures value { result ≡ first_of E.key entries.now }
    ensures steady { 0 < length entries.now → E.rule result ≡ result }
{
    match entries.first() {
        Some(entry) => entry.key(),
        None => 0,
    }
}

/// The key of the first of these.
fn least_key(named: &[Inner]) -> u64
    requires { 0 < length named.now }
    ensures { result ≡ first_of (λ c. c.key) named.now }
{
    named[0].key
}

/// Writes the leaves of a tree of these entries, and gives what names them.
fn put_leaves<W: Outside, E: Entry>(
    alloc: Global,
    w: &mut W,
    kind: u8,
    entries: &[E],
    ats: &[Bref],
) -> Result<Vec<Inner>, CompactStop>
    requires rises { RiseIn 0 (2 ^ 64) (map E.key entries.now) }
    requires count { length ats.now ≡ pages_for (488 / E.size) (length entries.now) }
    ensures keeps { KeepsSource (W.view w.old) (W.view w.new) }
    ensures fault { result ≡ Err CompactStop.Fault → Rose (W.view w.old).disk_faults (W.view w.new).disk_faults }
    ensures stops { IfErr result (λ stop. StopsCopy stop (W.view w.new)) }
    ensures named { IfOk result (λ cs. kids cs.items ≡ children E.key (groups (488 / E.size) entries.now) ats.now) }
    ensures count { IfOk result (λ cs. length cs.items ≡ length ats.now) }
    ensures rises { IfOk result (λ cs. RiseIn 0 (2 ^ 64) (keys cs.items)) }
    ensures steady { IfOk result (λ cs. 2 ≤ length cs.items → AreKeys E.rule (keys cs.items)) }
    ensures copy { OnOk result (PutsPages (form E.rule E.size E.entry_of E.key kind) (map leaf (groups (488 / E.size) entries.now)) ats.now (W.view w.old) (W.view w.new)) }
{
    let most = leaf_room::<E>();
    let mut children = Vec::new(alloc);
    let mut rest = entries;
    for at in ats {
        let (group, behind) = rest.split_at(most.min(rest.len()));
        let page = leaf_page(kind, *at, group);
        put(w, at.ib, &page)?;
        children.push(Inner {
            key: first_key(group),
            page: *at,
        })?;
        rest = behind;
    }
    Ok(children)
}

/// Writes the pages of a level that name those of the one below, and gives what names them in turn.
fn put_inners<W: Outside, E: Entry>(
    alloc: Global,
    w: &mut W,
    kind: u8,
    level: u8,
    below: &[Inner],
    ats: &[Bref],
) -> Result<Vec<Inner>, CompactStop>
    requires low { 1 ≤ level }
    requires high { level ≤ 7 }
    requires some { 0 < length below.now }
    requires rises { RiseIn 0 (2 ^ 64) (keys below.now) }
    requires steady { AreKeys E.rule (keys below.now) }
    requires count { length ats.now ≡ pages_for 20 (length below.now) }
    ensures keeps { KeepsSource (W.view w.old) (W.view w.new) }
    ensures fault { result ≡ Err CompactStop.Fault → Rose (W.view w.old).disk_faults (W.view w.new).disk_faults }
    ensures stops { IfErr result (λ stop. StopsCopy stop (W.view w.new)) }
    ensures named { IfOk result (λ cs. kids cs.items ≡ children head (groups 20 (kids below.now)) ats.now) }
    ensures copy { OnOk result (PutsPages (form E.rule E.size E.entry_of E.key kind) (map (inner level) (groups 20 (kids below.now))) ats.now (W.view w.old) (W.view w.new)) }
{
    let mut children = Vec::new(alloc);
    let mut rest = below;
    for at in ats {
        let (group, behind) = rest.split_at(CHILDREN.min(rest.len()));
        let page = inner_page::<E>(kind, level, *at, group);
        put(w, at.ib, &page)?;
        children.push(Inner {
            key: least_key(group),
            page: *at,
        })?;
        rest = behind;
    }
    Ok(children)
}

/// Writes the pages of the tree of these entries into Copy, level by level from the leaves on. `Fault` comes only where the disk failed, and `Memory` where there is too little of it.
pub fn put_tree<W: Outside, E: Entry>(
    alloc: Global,
    w: &mut W,
    kind: u8,
    entries: &[E],
    pages: &TreePages,
) -> Result<(), CompactStop>
    requires rises { RiseIn 0 (2 ^ 64) (map E.key entries.now) }
    requires planned { AreLevels (488 / E.size) (length entries.now) pages.now.levels.items pages.now.root }
    ensures keeps { KeepsSource (W.view w.old) (W.view w.new) }
    ensures fault { result ≡ Err CompactStop.Fault → Rose (W.view w.old).disk_faults (W.view w.new).disk_faults }
    ensures stops { IfErr result (λ stop. StopsCopy stop (W.view w.new)) }
    ensures copy { OnOk result (PutsTree (form E.rule E.size E.entry_of E.key kind) (488 / E.size) entries.now pages.now.levels.items (W.view w.old) (W.view w.new)) }
{
    let mut children = put_leaves(alloc, w, kind, entries, pages.levels[0].as_slice())?;
    for level in 1..pages.levels.len() {
        let ats = pages.levels[level].as_slice();
        children = put_inners::<W, E>(alloc, w, kind, level as u8, children.as_slice(), ats)?;
    }
    Ok(())
}
