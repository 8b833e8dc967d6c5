//! The way down to the first entry from a key on.
ghost use Rattle.std.specs.Prelude.{◌≡◌, ℕ, List, Option, map, drop, IfOk, IfErr};
ghost use Rattle.pst_base.specs.declared.ids.Bref.{Bref as Brefs};
ghost use Rattle.btree_pages.specs.Pages.{keys};
ghost use Rattle.tree_edit.specs.Shapes.{IsWhole};
ghost use Rattle.tree_edit.specs.Pages.{shapes};
ghost use Rattle.tree_edit.specs.Source.{Later};
ghost use Rattle.tree_search.specs.Search.{first_from, IsStart, IsTop, StopsIn};

use btree_pages::{Entry, TreePage};
use pst_base::{Bref, MemOr, SourceStop};
use tree_edit::PageSource;

/// The greatest level of a page.
const TOP: u8 = 7;

/// Where the entries of a page begin of which one may be the first from a key on.
fn start_of<E: Entry>(page: &TreePage<E>, low: u64) -> usize
    ensures { IsStart (keys E.rule page.now.entries) low result }
{
    match page.find(low) {
        Some(i) => i,
        None => 0,
    }
}

/// The first entry of a leaf from a key on, looked for from a place on.
fn leaf_from<E: Entry>(page: &TreePage<E>, start: usize, low: u64) -> Option<E>
    requires leaf { page.now.level ≡ 0 }
    ensures { result ≡ first_from E.key low (drop start (map E.entry_of page.now.entries)) }
{
    for i in start..page.count() {
        let entry = page.leaf(i);
        if entry.key() >= low {
            return Some(entry);
        }
    }
    None
}

/// What a page is that isn't of a tree.
fn changed(at: Bref) -> MemOr<SourceStop>
    ensures { result ≡ MemOr.Refused (SourceStop.Changed at.ib 0 0) }
{
    MemOr::Refused(SourceStop::Changed {
        ib: at.ib,
        stored: 0,
        computed: 0,
    })
}

/// The first entry from a key on below a page of a level up to `most`.
fn find_below<E: Entry, S: PageSource>(
    most: u8,
    at: Bref,
    low: u64,
    s: &mut S,
) -> Result<Option<E>, MemOr<SourceStop>>
    ensures later { Later (S.view s.old) (S.view s.new) }
    ensures found { IfOk result (λ found. (find : Brefs → Option (List ℕ)) → (S.view s.old).holds find → (es : List E) → IsTop (shapes E.rule E.size E.entry_of find) E.key most at es → found ≡ first_from E.key low es) }
    ensures stops { IfErr result (StopsIn (S.view s.old) (S.view s.new) (λ find. (es : List E) × IsTop (shapes E.rule E.size E.entry_of find) E.key most at es)) }
{
    let body = s.page(at)?;
    let Ok(page) = TreePage::<E>::read(&body) else {
        return Err(changed(at));
    };
    let start = start_of(&page, low);
    if page.level() == 0 {
        return Ok(leaf_from(&page, start, low));
    }
    if most == 0 {
        return Err(changed(at));
    }
    for i in start..page.count() {
        let found = find_below(most - 1, page.inner(i).page, low, s)?;
        if found.is_some() {
            return Ok(found);
        }
    }
    Ok(None)
}

/// The first entry of a root's tree whose key isn't below a number; `None` where all are. `Failed` comes where the source failed, `Changed` where its pages aren't a tree of a level up to 7.
pub fn find_from<E: Entry, S: PageSource>(
    root: Bref,
    low: u64,
    s: &mut S,
) -> Result<Option<E>, MemOr<SourceStop>>
    ensures later { Later (S.view s.old) (S.view s.new) }
    ensures found { IfOk result (λ found. (find : Brefs → Option (List ℕ)) → (S.view s.old).holds find → (es : List E) (ps : List Brefs)
        → IsWhole (shapes E.rule E.size E.entry_of find) E.key root es ps → found ≡ first_from E.key low es) }
    ensures stops { IfErr result (StopsIn (S.view s.old) (S.view s.new) (λ find. (es : List E) × (ps : List Brefs) × IsWhole (shapes E.rule E.size E.entry_of find) E.key root es ps)) }
{
    find_below(TOP, root, low, s)
}
