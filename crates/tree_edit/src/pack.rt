//! New pages for a list of entries or children.
ghost use Rattle.std.specs.Prelude.{◌≡◌, ◌⊎◌, ◌≤◌, ◌+◌, ◌-◌, ◌*◌, ◌/◌, ◌^◌, ℕ, suc, IfOk, length, map};
ghost use Rattle.btree_pages.specs.Pages.{size_at};
ghost use Rattle.tree_edit.specs.Joins.{IsMost};
ghost use Rattle.tree_edit.specs.Plans.{AreKeys, AreWritable, keys_of};
ghost use Rattle.tree_edit.specs.Shapes.{RiseIn};
ghost use Rattle.tree_edit.specs.Steps.{Lays, Packs};

use crate::plan::{Child, PlanPage};
use btree_pages::Entry;
use std::alloc::{AllocError, Global};

/// How many bytes the entries of a page take at most.
const ENTRIES: usize = 488;

/// How many bytes an entry of a page of a level has.
fn entry_size<E: Entry>(level: u8) -> usize
    ensures value { result ≡ size_at E.size level }
    ensures low { 24 ≤ result }
    ensures high { result ≤ 32 }
{
    if level == 0 { E::size() } else { 24 }
}

/// How many entries a page of a level has at most.
pub(crate) fn most_at<E: Entry>(level: u8) -> usize
    ensures holds { result * size_at E.size level ≤ 488 }
    ensures most { (n : ℕ) → n * size_at E.size level ≤ 488 → n ≤ result }
    ensures low { 15 ≤ result }
    ensures high { result ≤ 20 }
{
    ENTRIES / entry_size::<E>(level)
}

/// The number of entries from which on a page isn't less than a quarter full.
pub(crate) fn quarter(most: usize) -> usize
    requires { most ≤ 20 }
    ensures { result ≡ (most + 3) / 4 }
{
    (most + 3) / 4
}

/// How many of the entries that are left the next page takes: all that it has room for, but that it leaves none, or a quarter of a page.
fn share(most: usize, left: usize) -> usize
    requires low { 15 ≤ most }
    requires high { most ≤ 20 }
    requires some { 1 ≤ left }
    ensures some { 1 ≤ result }
    ensures within { result ≤ left }
    ensures fits { result ≤ most }
    ensures few { (k : ℕ) → left ≤ suc k * most → left - result ≤ k * most }
    ensures quarter { (result ≡ left) ⊎ (((most + 3) / 4 ≤ result) × ((most + 3) / 4 ≤ left - result)) }
{
    if left <= most {
        return left;
    }
    let least = quarter(most);
    if left - most < least {
        return left - least;
    }
    most
}

/// The leaves of some entries, each but the last two full, and none less than a quarter full beside others.
pub(crate) fn pack_leaves<E: Entry>(
    alloc: Global,
    entries: &[E],
    pages: &mut Vec<PlanPage<E>>,
) -> Result<Vec<(u64, Child)>, AllocError>
    requires rises { RiseIn 0 (2 ^ 64) (map E.key entries.now) }
    ensures writable { IfOk result (λ _. AreWritable E.key E.rule E.size pages.old.items → AreWritable E.key E.rule E.size pages.new.items) }
    ensures keys { IfOk result (λ cs. AreKeys E.rule (keys_of cs.items)) }
    ensures lays { IfOk result (λ cs. Lays E.key pages.old.items pages.new.items cs.items entries.now) }
    ensures grows { IfOk result (λ cs. length pages.new.items ≡ length pages.old.items + length cs.items) }
    ensures few { IfOk result (λ cs. (n k e : ℕ) → n * E.size ≤ 488 → length entries.now ≤ k * n + e → length cs.items ≤ k + e) }
    ensures most { IfOk result (λ _. (most : ℕ) × IsMost E.size 0 most) }
{
    let most = most_at::<E>(0);
    let mut out = Vec::new(alloc);
    let mut rest = entries;
    while rest.len() > 0 {
        let (here, others) = rest.split_at(share(most, rest.len()));
        out.push((here[0].key(), Child::New(pages.len())))?;
        pages.push(PlanPage::Leaf(Vec::from_slice(alloc, here)?))?;
        rest = others;
    }
    Ok(out)
}

/// The pages of a level that name some children, each but the last two full, and none less than a quarter full beside others.
pub fn pack_inners<E: Entry>(
    alloc: Global,
    level: u8,
    children: &[(u64, Child)],
    pages: &mut Vec<PlanPage<E>>,
) -> Result<Vec<(u64, Child)>, AllocError>
    requires low { 1 ≤ level }
    requires high { level ≤ 7 }
    requires rises { RiseIn 0 (2 ^ 64) (keys_of children.now) }
    requires keys { AreKeys E.rule (keys_of children.now) }
    ensures writable { IfOk result (λ _. AreWritable E.key E.rule E.size pages.old.items → AreWritable E.key E.rule E.size pages.new.items) }
    ensures keys { IfOk result (λ cs. AreKeys E.rule (keys_of cs.items)) }
    ensures packs { IfOk result (λ cs. (n : ℕ) → level ≡ n + 1 → Packs E.key n pages.old.items pages.new.items children.now cs.items) }
    ensures grows { IfOk result (λ cs. length pages.new.items ≡ length pages.old.items + length cs.items) }
    ensures few { IfOk result (λ cs. (k e : ℕ) → length children.now ≤ k * 20 + e → length cs.items ≤ k + e) }
    ensures some { IfOk result (λ cs. 1 ≤ length children.now → 1 ≤ length cs.items) }
{
    let most = most_at::<E>(level);
    let mut out = Vec::new(alloc);
    let mut rest = children;
    while rest.len() > 0 {
        let (here, others) = rest.split_at(share(most, rest.len()));
        out.push((here[0].0, Child::New(pages.len())))?;
        pages.push(PlanPage::Inner {
            level,
            children: Vec::from_slice(alloc, here)?,
        })?;
        rest = others;
    }
    Ok(out)
}
