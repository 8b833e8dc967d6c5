//! What stands below a root after edits.
ghost use Rattle.std.specs.Prelude.{◌≡◌, ◌≤◌, ◌+◌, ◌-◌, ◌*◌, ◌^◌, ◌++◌, ℕ, List, Option, Ok, length, IfOk, IfErr};
ghost use Rattle.pst_base.specs.declared.ids.Bref.{Bref as Brefs};
ghost use Rattle.btree_pages.specs.Pages.{Page, keys, page_of, size_at};
ghost use Rattle.tree_edit.specs.Shapes.{RiseIn};
ghost use Rattle.tree_edit.specs.Edits.{AreEdits, edited, puts};
ghost use Rattle.tree_edit.specs.Joins.{IsMost};
ghost use Rattle.tree_edit.specs.Plans.{AreKeys, AreWritable, keys_of};
ghost use Rattle.tree_edit.specs.Steps.{AreFew, AreSpare, IsUnder, Replaces, TellsUnder};
ghost use Rattle.tree_edit.specs.Pages.{shapes};
ghost use Rattle.tree_edit.specs.Source.{Later, StopsOn};

use crate::anew::gathered;
use crate::descent::{changed, edit_children, edit_leaf};
use crate::merge::{given_entries, merged};
use crate::pack::pack_leaves;
use crate::page::page_within;
use crate::plan::{Child, PlanPage};
use crate::source::PageSource;
use btree_pages::{Entry, TreePage};
use pst_base::{Bref, MemOr, SourceStop};
use std::alloc::Global;

/// The page of a root at this place, whose content this is. `Changed` comes where its entries, level or keys aren't those of such a page, with two zeros for its numbers.
pub fn root_page<'a, E: Entry>(
    body: &'a [u8; 496],
    at: Bref,
) -> Result<TreePage<'a, E>, MemOr<SourceStop>>
    ensures page { IfOk result (λ page. page_of E.rule E.size body.now ≡ Ok page) }
    ensures rises { IfOk result (λ page. RiseIn 0 (2 ^ 64) (keys E.rule page.entries)) }
    ensures fits { IfOk result (λ page. length page.entries * size_at E.size page.level ≤ 488) }
    ensures changed { IfErr result (λ stop. stop ≡ MemOr.Refused (SourceStop.Changed at.ib 0 0)) }
    ensures none { IfErr result (λ _. (page : Page) → page_of E.rule E.size body.now ≡ Ok page → RiseIn 0 (2 ^ 64) (keys E.rule page.entries) → ⊥) }
{
    let Some(page) = page_within(body, 0, u64::MAX) else {
        return Err(changed(at));
    };
    Ok(page)
}

/// Pages of one level, each with the least key that may stand below it.
#[derive(Drop)]
pub struct Level {
    pub level: u8,
    pub children: Vec<(u64, Child)>,
}

/// What stands below a root after edits, whose keys ascend: new leaves, of a root that is a leaf or has no child, else pages of the level below its own. The pages on the way to the edits and the neighbours that are joined are read, and put behind those that are freed; the new pages that stand for them are put behind others.
///
/// `Failed` and `Changed` are the source's own stops. `Changed` also comes at a page whose entries, level or keys aren't those of its place in the tree, with two zeros for its numbers.
pub fn edit_root<E: Entry, S: PageSource>(
    alloc: Global,
    page: &TreePage<E>,
    edits: &[(u64, Option<E>)],
    s: &mut S,
    pages: &mut Vec<PlanPage<E>>,
    freed: &mut Vec<Bref>,
) -> Result<Level, MemOr<SourceStop>>
    requires edits { AreEdits E.key 0 (2 ^ 64) edits.now }
    requires rises { RiseIn 0 (2 ^ 64) (keys E.rule page.now.entries) }
    requires fits { length page.now.entries * size_at E.size page.now.level ≤ 488 }
    ensures writable { IfOk result (λ _. AreWritable E.key E.rule E.size pages.old.items → AreWritable E.key E.rule E.size pages.new.items) }
    ensures later { Later (S.view s.old) (S.view s.new) }
    ensures stopped { IfErr result (StopsOn (TellsUnder E.rule E.size E.entry_of E.key page.now) (S.view s.old) (S.view s.new)) }
    ensures level { IfOk result (λ top. top.level ≤ 7) }
    ensures lower { IfOk result (λ top. top.level ≤ page.now.level - 1) }
    ensures keys { IfOk result (λ top. AreKeys E.rule (keys_of top.children.items)) }
    ensures rises { IfOk result (λ top. RiseIn 0 (2 ^ 64) (keys_of top.children.items)) }
    ensures few { IfOk result (λ top. AreFew page.now.level (length edits.now) (length pages.old.items) (length pages.new.items) (length top.children.items)) }
    ensures replaces { IfOk result (λ top. (find : Brefs → Option (List ℕ)) → (S.view s.old).holds find → (es : List E) (ps : List Brefs)
        → IsUnder (shapes E.rule E.size E.entry_of find) E.key E.rule E.entry_of page.now es ps
        → Replaces (shapes E.rule E.size E.entry_of find) E.key top.level (2 ^ 64) pages.old.items pages.new.items freed.old.items freed.new.items top.children.items (edited E.key es edits.now) ps) }
    ensures spare { IfOk result (λ top. (find : Brefs → Option (List ℕ)) → (S.view s.old).holds find → (es : List E) (ps : List Brefs)
        → IsUnder (shapes E.rule E.size E.entry_of find) E.key E.rule E.entry_of page.now es ps
        → AreSpare (page.now.level - 1) (puts E.key es edits.now) (length pages.old.items) (length pages.new.items) (length freed.old.items) (length freed.new.items) (length top.children.items)) }
{
    if page.level() == 0 {
        let children = edit_leaf(alloc, page, edits, pages)?;
        return Ok(Level { level: 0, children });
    }
    if page.count() == 0 {
        let entries = given_entries(alloc, edits)?;
        let children = pack_leaves(alloc, entries.as_slice(), pages)?;
        return Ok(Level { level: 0, children });
    }
    let children = edit_children(alloc, page, 0, u64::MAX, edits, s, pages, freed)?;
    Ok(Level {
        level: page.level() - 1,
        children,
    })
}

/// The leaves of all entries below a root after edits, whose keys ascend, packed into new pages that are put behind others. All pages there are read, and put behind those that are freed.
///
/// It stops as `edit_root` does.
pub fn repacked<E: Entry, S: PageSource>(
    alloc: Global,
    page: &TreePage<E>,
    edits: &[(u64, Option<E>)],
    s: &mut S,
    pages: &mut Vec<PlanPage<E>>,
    freed: &mut Vec<Bref>,
) -> Result<Vec<(u64, Child)>, MemOr<SourceStop>>
    requires edits { AreEdits E.key 0 (2 ^ 64) edits.now }
    requires rises { RiseIn 0 (2 ^ 64) (keys E.rule page.now.entries) }
    ensures writable { IfOk result (λ _. AreWritable E.key E.rule E.size pages.old.items → AreWritable E.key E.rule E.size pages.new.items) }
    ensures later { Later (S.view s.old) (S.view s.new) }
    ensures stopped { IfErr result (StopsOn (TellsUnder E.rule E.size E.entry_of E.key page.now) (S.view s.old) (S.view s.new)) }
    ensures keys { IfOk result (λ cs. AreKeys E.rule (keys_of cs.items)) }
    ensures rises { IfOk result (λ cs. RiseIn 0 (2 ^ 64) (keys_of cs.items)) }
    ensures grows { IfOk result (λ cs. length pages.new.items ≡ length pages.old.items + length cs.items) }
    ensures replaces { IfOk result (λ cs. (find : Brefs → Option (List ℕ)) → (S.view s.old).holds find → (es : List E) (ps : List Brefs)
        → IsUnder (shapes E.rule E.size E.entry_of find) E.key E.rule E.entry_of page.now es ps
        → Replaces (shapes E.rule E.size E.entry_of find) E.key 0 (2 ^ 64) pages.old.items pages.new.items freed.old.items freed.new.items cs.items (edited E.key es edits.now) ps) }
    ensures freed { IfOk result (λ _. (find : Brefs → Option (List ℕ)) → (S.view s.old).holds find → (es : List E) (ps : List Brefs)
        → IsUnder (shapes E.rule E.size E.entry_of find) E.key E.rule E.entry_of page.now es ps
        → freed.new.items ≡ freed.old.items ++ ps) }
    ensures few { IfOk result (λ cs. (find : Brefs → Option (List ℕ)) → (S.view s.old).holds find → (es : List E) (ps : List Brefs)
        → IsUnder (shapes E.rule E.size E.entry_of find) E.key E.rule E.entry_of page.now es ps
        → (most : ℕ) × IsMost E.size 0 most × ((k : ℕ) → length es ≤ k * most → length cs.items ≤ k + puts E.key es edits.now)) }
{
    let before = gathered(alloc, page, s, freed)?;
    let entries = merged(alloc, before.as_slice(), edits)?;
    let leaves = pack_leaves(alloc, entries.as_slice(), pages)?;
    Ok(leaves)
}
