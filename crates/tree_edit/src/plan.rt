//! New pages of a tree.
use pst_base::Bref;

/// A page that another names: one of the file, or a new one by its number in the plan.
#[derive(Clone, Copy, Debug, PartialEq, Eq)]
pub enum Child {
    Old(Bref),
    New(usize),
}

/// A new page: a leaf's entries, or the level of an inner page and its children, each with the least key that may stand below it.
#[derive(Drop)]
pub enum PlanPage<E> {
    Leaf(Vec<E>),
    Inner {
        level: u8,
        children: Vec<(u64, Child)>,
    },
}

/// New pages, the pages of the file that no longer belong to the tree, and the new root.
#[derive(Drop)]
pub struct Plan<E> {
    pub pages: Vec<PlanPage<E>>,
    pub freed: Vec<Bref>,
    pub root: Child,
}
