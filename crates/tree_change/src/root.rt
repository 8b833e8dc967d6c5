//! A tree after edits, from its root.
ghost use Rattle.std.specs.Prelude.{◌≡◌, ◌⊎◌, ◌≤◌, ◌<◌, ◌+◌, ◌-◌, ◌*◌, ◌^◌, ◌∷◌, ℕ, List, Option, length, IfOk, IfErr, IfSome, IfNone};
ghost use Rattle.pst_base.specs.declared.ids.Bref.{Bref as Brefs};
ghost use Rattle.btree_pages.specs.Pages.{keys, size_at};
ghost use Rattle.tree_edit.specs.Shapes.{RiseIn, IsWhole};
ghost use Rattle.tree_edit.specs.Edits.{AreEdits, edited, puts};
ghost use Rattle.tree_edit.specs.Plans.{AreKeys, AreWritable, IsPlan, keys_of};
ghost use Rattle.tree_edit.specs.Steps.{IsAnew, IsUnder, Lifts, TellsUnder};
ghost use Rattle.tree_edit.specs.Pages.{shapes};
ghost use Rattle.tree_edit.specs.Source.{Later, StopsOn, TellsWhole};
ghost use Rattle.tree_change.specs.Tops.{IsTop, Narrows, room};

use btree_pages::{Entry, TreePage};
use pst_base::{Bref, MemOr, SourceStop};
use std::alloc::{AllocError, Global};
use tree_edit::{
    Child, Level, PageSource, Plan, PlanPage, edit_root, pack_inners, repacked, root_page,
};

/// Pages above some, of as many levels as it takes that at most one is left; `None` where that would pass level 7.
fn lifted<E: Entry>(
    alloc: Global,
    level: u8,
    children: Vec<(u64, Child)>,
    pages: &mut Vec<PlanPage<E>>,
) -> Result<Option<Level>, AllocError>
    requires level { level ≤ 7 }
    requires rises { RiseIn 0 (2 ^ 64) (keys_of children.items) }
    requires keys { AreKeys E.rule (keys_of children.items) }
    ensures writable { IfOk result (λ _. AreWritable E.key E.rule E.size pages.old.items → AreWritable E.key E.rule E.size pages.new.items) }
    ensures lifts { IfOk result (λ found. IfSome found (λ top. Lifts E.key level top.level pages.old.items pages.new.items children.items top.children.items)) }
    ensures few { IfOk result (λ found. IfSome found (λ top. length top.children.items ≤ 1)) }
    ensures some { IfOk result (λ found. IfSome found (λ top. 1 ≤ length children.items → 1 ≤ length top.children.items)) }
    ensures plain { IfOk result (λ found. IfSome found (λ top. length pages.new.items + length top.children.items ≤ length pages.old.items + length children.items)) }
    ensures grown { IfOk result (λ found. IfSome found (λ _. (e : ℕ) → length children.items ≤ 20 + e → length pages.new.items ≤ length pages.old.items + 1 + 2 * e)) }
    ensures narrow { IfOk result (λ found. IfSome found (λ _. (n u : ℕ) (ms : List ℕ) → Narrows n ms → length children.items ≤ n + u → length pages.new.items ≤ length pages.old.items + room u ms)) }
    ensures level { IfOk result (λ found. IfSome found (λ top. top.level ≤ 7)) }
    ensures many { IfOk result (λ found. IfNone found (20 ^ (7 - level) < length children.items)) }
{
    let mut level = level;
    let mut children = children;
    'up: while children.len() > 1 {
        if level == 7 {
            return Ok(None);
        }
        children = pack_inners(alloc, level + 1, children.as_slice(), pages)?;
        level += 1;
    }
    Ok(Some(Level { level, children }))
}

/// The root of at most one page, for which there is a leaf without entries where there is none.
fn root_of<E: Entry>(
    alloc: Global,
    children: &[(u64, Child)],
    pages: &mut Vec<PlanPage<E>>,
) -> Result<Child, AllocError>
    requires { length children.now ≤ 1 }
    ensures writable { IfOk result (λ _. AreWritable E.key E.rule E.size pages.old.items → AreWritable E.key E.rule E.size pages.new.items) }
    ensures top { IfOk result (λ root. IsTop pages.old.items pages.new.items children.now root) }
    ensures grows { IfOk result (λ _. length pages.new.items + length children.now ≤ length pages.old.items + 1) }
{
    if children.len() > 0 {
        return Ok(children[0].1);
    }
    let root = Child::New(pages.len());
    pages.push(PlanPage::Leaf(Vec::new(alloc)))?;
    Ok(root)
}

/// The tree of a root after edits, written anew in as few pages as it takes. All its pages are read and freed.
fn rewritten<E: Entry, S: PageSource>(
    alloc: Global,
    root: Bref,
    page: &TreePage<E>,
    edits: &[(u64, Option<E>)],
    s: &mut S,
) -> Result<Plan<E>, MemOr<SourceStop>>
    requires edits { AreEdits E.key 0 (2 ^ 64) edits.now }
    requires rises { RiseIn 0 (2 ^ 64) (keys E.rule page.now.entries) }
    requires fits { length page.now.entries * size_at E.size page.now.level ≤ 488 }
    ensures later { Later (S.view s.old) (S.view s.new) }
    ensures stopped { IfErr result (StopsOn (TellsUnder E.rule E.size E.entry_of E.key page.now) (S.view s.old) (S.view s.new)) }
    ensures writable { IfOk result (λ plan. AreWritable E.key E.rule E.size plan.pages.items) }
    ensures plan { IfOk result (λ plan. (find : Brefs → Option (List ℕ)) → (S.view s.old).holds find → (es : List E) (ps : List Brefs)
        → IsUnder (shapes E.rule E.size E.entry_of find) E.key E.rule E.entry_of page.now es ps
        → IsPlan (shapes E.rule E.size E.entry_of find) E.key plan.pages.items plan.freed.items plan.root (edited E.key es edits.now) (root ∷ ps)) }
    ensures freed { IfOk result (λ plan. (find : Brefs → Option (List ℕ)) → (S.view s.old).holds find → (es : List E) (ps : List Brefs)
        → IsUnder (shapes E.rule E.size E.entry_of find) E.key E.rule E.entry_of page.now es ps
        → plan.freed.items ≡ root ∷ ps) }
    ensures spare { IfOk result (λ plan. (find : Brefs → Option (List ℕ)) → (S.view s.old).holds find → (es : List E) (ps : List Brefs)
        → IsUnder (shapes E.rule E.size E.entry_of find) E.key E.rule E.entry_of page.now es ps
        → length plan.pages.items ≤ length plan.freed.items + (page.now.level - 1 + 3) * puts E.key es edits.now) }
{
    let mut pages = Vec::new(alloc);
    let mut freed = Vec::new(alloc);
    freed.push(root)?;
    let leaves = repacked(alloc, page, edits, s, &mut pages, &mut freed)?;
    let Some(top) = lifted(alloc, 0, leaves, &mut pages)? else {
        return Err(MemOr::Memory);
    };
    let root = root_of(alloc, top.children.as_slice(), &mut pages)?;
    Ok(Plan { pages, freed, root })
}

/// Plans the tree of a root after edits, whose keys ascend: new pages, the pages that are freed, and the new root. An edit puts its entry in its key's place, or takes the entry there away; `None` for a key that isn't there changes nothing. It reads the pages on the way to the edits, and copies each of them. A page that edits leave less than a quarter full, though not empty, is joined with the page before it below the same inner page, or with the one behind it where it is the first; those neighbours are read and copied too. An only child and the root stay as they are.
///
/// Where the tree would pass level 7, it is written anew instead: all its pages are read and freed, and its entries are packed into new pages.
///
/// `Failed` and `Changed` are the source's own stops. `Changed` also comes at a page whose entries, level or keys aren't those of its place in the tree, with two zeros for its numbers. Memory is also wanted where even a packed tree would pass level 7, which takes more than 19,200,000,000 entries.
///
/// Of e edits of a tree whose root has level n come at most `2 * (n + 2) * e` new pages, where it isn't written anew, and at most `n + 2` for each entry that is put under a new key (three in a leaf) beside as many as are freed.
pub fn change<E: Entry, S: PageSource>(
    alloc: Global,
    root: Bref,
    edits: &[(u64, Option<E>)],
    s: &mut S,
) -> Result<Plan<E>, MemOr<SourceStop>>
    requires { AreEdits E.key 0 (2 ^ 64) edits.now }
    ensures later { Later (S.view s.old) (S.view s.new) }
    ensures stopped { IfErr result (StopsOn (TellsWhole E.rule E.size E.entry_of E.key root) (S.view s.old) (S.view s.new)) }
    ensures plan { IfOk result (λ plan. (find : Brefs → Option (List ℕ)) → (S.view s.old).holds find → (es : List E) (ps : List Brefs)
        → IsWhole (shapes E.rule E.size E.entry_of find) E.key root es ps
        → IsPlan (shapes E.rule E.size E.entry_of find) E.key plan.pages.items plan.freed.items plan.root (edited E.key es edits.now) ps) }
    ensures writable { IfOk result (λ plan. AreWritable E.key E.rule E.size plan.pages.items) }
    ensures bound { IfOk result (λ plan. (find : Brefs → Option (List ℕ)) → (S.view s.old).holds find → (es : List E) (ps : List Brefs)
        → (whole : IsWhole (shapes E.rule E.size E.entry_of find) E.key root es ps)
        → (length plan.pages.items ≤ (2 * (whole.level + 2)) * length edits.now) ⊎ IsAnew whole.level (length edits.now) plan.freed.items ps) }
    ensures spare { IfOk result (λ plan. (find : Brefs → Option (List ℕ)) → (S.view s.old).holds find → (es : List E) (ps : List Brefs)
        → (whole : IsWhole (shapes E.rule E.size E.entry_of find) E.key root es ps) → length plan.pages.items ≤ length plan.freed.items + (whole.level - 1 + 3) * puts E.key es edits.now) }
{
    let mut pages = Vec::new(alloc);
    let mut freed = Vec::new(alloc);
    if edits.len() == 0 {
        return Ok(Plan {
            pages,
            freed,
            root: Child::Old(root),
        });
    }
    let body = s.page(root)?;
    let page = root_page::<E>(&body, root)?;
    freed.push(root)?;
    let below = edit_root(alloc, &page, edits, s, &mut pages, &mut freed)?;
    let Some(top) = lifted(alloc, below.level, below.children, &mut pages)? else {
        let plan = rewritten(alloc, root, &page, edits, s)?;
        return Ok(plan);
    };
    let root = root_of(alloc, top.children.as_slice(), &mut pages)?;
    Ok(Plan { pages, freed, root })
}
