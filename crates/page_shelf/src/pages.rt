//! Pages in memory.
ghost use Rattle.std.specs.Prelude.{◌≤◌, ◌*◌, ◌^◌, map, length};
ghost use Rattle.pst_base.specs.Ids.{key_of};
ghost use Rattle.tree_edit.specs.Shapes.{RiseIn};
ghost use Rattle.tree_edit.specs.Plans.{AreKeys, AreWritable, IsWritable, keys_of};

use btree_pages::{BlockEntry, Inner, write_inner, write_leaf};
use pst_base::{Bid, Bref, MemOr, SourceStop};
use std::alloc::{AllocError, Global};
use tree_edit::{Child, PageSource, Plan, PlanPage};

/// All pages of a tree of blocks, each at its number, old ones too, and which is the root.
#[derive(Drop)]
pub struct Shelf {
    pages: Vec<[u8; 496]>,
    root: Bref,
}

impl PageSource for Shelf {
    ghost view = { λ s. record { holds = λ find. ⊥; fails = 0; changes = 2 ^ 64; since = λ first. Unit {0} } };

    ghost use Rattle.std.specs.Prelude.{◌^◌};

    fn page(&mut self, at: Bref) -> Result<[u8; 496], MemOr<SourceStop>> {
        match self.pages.get(at.ib as usize) {
            Some(page) => Ok(*page),
            None => Err(MemOr::Refused(SourceStop::Changed {
                ib: at.ib,
                stored: 0,
                computed: 0,
            })),
        }
    }
}

/// The page with a number.
fn numbered(number: usize) -> Bref {
    Bref {
        bid: Bid { bits: 1 },
        ib: number as u64,
    }
}

/// Where a child of a new page stands, where the new pages are numbered from a number on.
fn place_of(child: Child, from: usize) -> Bref {
    match child {
        Child::Old(at) => at,
        Child::New(i) => numbered(from.saturating_add(i)),
    }
}

/// The content of a leaf.
fn leaf_content(entries: &[BlockEntry]) -> [u8; 496]
    requires few { length entries.now * 24 ≤ 488 }
    requires rises { RiseIn 0 (2 ^ 64) (map (λ e. key_of e.at.bid.bits) entries.now) }
{
    write_leaf(entries)
}

/// The content of an inner page.
fn inner_content(
    alloc: Global,
    level: u8,
    children: &[(u64, Child)],
    from: usize,
) -> Result<[u8; 496], AllocError>
    requires low { 1 ≤ level }
    requires high { level ≤ 7 }
    requires few { length children.now ≤ 20 }
    requires rises { RiseIn 0 (2 ^ 64) (keys_of children.now) }
    requires keys { AreKeys key_of (keys_of children.now) }
{
    let mut entries = Vec::with_capacity(alloc, children.len())?;
    for i in 0..children.len() {
        let (key, child) = children[i];
        let page = place_of(child, from);
        entries.push(Inner { key, page })?;
    }
    Ok(write_inner::<BlockEntry>(level, entries.as_slice()))
}

/// The content of a new page.
fn content(alloc: Global, page: &PlanPage<BlockEntry>, from: usize) -> Result<[u8; 496], AllocError>
    requires { IsWritable (λ e. key_of e.at.bid.bits) key_of 24 page.now }
{
    match page {
        PlanPage::Leaf(entries) => Ok(leaf_content(entries.as_slice())),
        PlanPage::Inner { level, children } => {
            inner_content(alloc, *level, children.as_slice(), from)
        }
    }
}

impl Shelf {
    /// A tree without entries.
    pub fn new(alloc: Global) -> Result<Shelf, AllocError> {
        let mut pages = Vec::new(alloc);
        pages.push(write_leaf::<BlockEntry>(&[]))?;
        Ok(Shelf {
            pages,
            root: numbered(0),
        })
    }

    /// Puts a page of a level above the root, which is its only child and has keys from 4 on.
    pub fn raise(&mut self, level: u8) -> Result<(), AllocError>
        requires low { 1 ≤ level }
        requires high { level ≤ 7 }
    {
        let at = self.pages.len();
        let child = Inner {
            key: 4,
            page: self.root,
        };
        self.pages.push(write_inner::<BlockEntry>(level, &[child]))?;
        self.root = numbered(at);
        Ok(())
    }

    /// The root's page.
    pub fn root(&self) -> Bref {
        self.root
    }

    /// Writes the new pages of a plan, whose root is then the tree's.
    pub fn lay(&mut self, alloc: Global, plan: &Plan<BlockEntry>) -> Result<(), AllocError>
        requires { AreWritable (λ e. key_of e.at.bid.bits) key_of 24 plan.now.pages.items }
    {
        let from = self.pages.len();
        for i in 0..plan.pages.len() {
            let page = content(alloc, &plan.pages[i], from)?;
            self.pages.push(page)?;
        }
        self.root = place_of(plan.root, from);
        Ok(())
    }
}
