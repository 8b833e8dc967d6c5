//! Looking an entry up.
ghost use Rattle.std.specs.Prelude.{◌≡◌, ℕ, List, Option, ◌∷◌, [], IfOk, IfErr};
ghost use Rattle.pst_base.specs.declared.ids.Bref.{Bref as Brefs};
ghost use Rattle.tree_edit.specs.Shapes.{IsWhole};
ghost use Rattle.tree_edit.specs.Edits.{entry_with};
ghost use Rattle.tree_edit.specs.Pages.{shapes};
ghost use Rattle.tree_edit.specs.Source.{Later, StopsOn, TellsWhole};

use crate::descent::changed;
use crate::page::page_below;
use crate::source::PageSource;
use btree_pages::Entry;
use pst_base::{Bref, MemOr, SourceStop};

/// How many levels a tree has at most.
const LEVELS: u8 = 8;

/// An entry, if it has this key.
fn with_key<E: Entry>(entry: E, key: u64) -> Option<E>
    ensures { result ≡ entry_with E.key key (entry ∷ []) }
{
    if entry.key() == key {
        Some(entry)
    } else {
        None
    }
}

/// The entry with a key in the tree of a root. It reads the pages on the way to the key alone.
///
/// `Failed` and `Changed` are the source's own stops. `Changed` also comes at a page whose entries, level or keys aren't those of its place in the tree, with two zeros for its numbers.
pub fn look_up<E: Entry, S: PageSource>(
    root: Bref,
    key: u64,
    s: &mut S,
) -> Result<Option<E>, MemOr<SourceStop>>
    ensures later { Later (S.view s.old) (S.view s.new) }
    ensures stopped { IfErr result (StopsOn (TellsWhole E.rule E.size E.entry_of E.key root) (S.view s.old) (S.view s.new)) }
    ensures found { IfOk result (λ found. (find : Brefs → Option (List ℕ)) → (S.view s.old).holds find → (es : List E) (ps : List Brefs)
        → IsWhole (shapes E.rule E.size E.entry_of find) E.key root es ps → found ≡ entry_with E.key key es) }
{
    let mut at = root;
    let mut limit = LEVELS;
    'down: loop {
        let body = s.page(at)?;
        let Some(page) = page_below::<E>(&body, limit) else {
            return Err(changed(at));
        };
        let Some(i) = page.find(key) else {
            return Ok(None);
        };
        limit = page.level();
        if limit == 0 {
            return Ok(with_key(page.leaf(i), key));
        }
        at = page.inner(i).page;
    }
}
