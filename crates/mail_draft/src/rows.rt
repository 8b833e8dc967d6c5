//! Rows that show objects.
ghost use Rattle.std.specs.Prelude.{◌≡◌, ℕ, List, Option, length, IfErr, IfOk};
ghost use Rattle.mapi_values.specs.Values.{Val};
ghost use Rattle.mail_tree.specs.Tree.{Shown, Tree};
ghost use Rattle.mail_draft.specs.Answers.{IsCaused, Looks, Says};
ghost use Rattle.mail_draft.specs.Drafts.{changed_of};
ghost use Rattle.mail_objects.specs.declared.object.Object.{Object};
ghost use Rattle.mail_tree.specs.Changing.{as_table, overfills, table_at, with_object};

use crate::draft::Draft;
use crate::kept::kept_table;
use crate::stop::Stop;
use mail_objects::{Object, TableNode};
use mapi_values::Table;
use node_port::NodeReader;
use pst_base::Nid;
use pst_outside::Outside;
use std::alloc::Global;

/// Whether a table has more than 100,000 rows, and more than it had.
pub(crate) fn overfills(old_len: usize, table: &Table) -> bool
    ensures { (old : List (ℕ × List Val)) → length old ≡ old_len → result ≡ overfills old table.now.rows }
{
    let len = table.rows().len();
    len > 100_000 && len > old_len
}

/// The object as a table, if it is there and is one.
fn into_table(object: Option<Object>) -> Option<TableNode>
    ensures { result ≡ as_table object }
{
    match object {
        Some(Object::Table(node)) => Some(node),
        _ => None,
    }
}

/// The table at an id, and the draft in which it can be put again. A table of the draft isn't copied. The draft is lost with an `Err`.
pub(crate) fn table_out<W: Outside, K: NodeReader<W>>(
    alloc: Global,
    keeper: &mut K,
    w: &mut W,
    draft: Draft,
    nid: Nid,
) -> Result<(Draft, TableNode), Stop>
    ensures answer { (T : Tree) → Shown (K.holds keeper.old (W.view w.old)) (K.last keeper.old) T → Says (λ p. p.1) (table_at T (changed_of draft) nid.bits) result }
    ensures rest { IfOk result (λ p. (object : Option Object) → with_object nid.bits object (changed_of p.0) ≡ with_object nid.bits object (changed_of draft)) }
    ensures looks { Looks (K.holds keeper.old (W.view w.old)) (K.holds keeper.new (W.view w.new)) (K.last keeper.old) (K.last keeper.new) (K.room keeper.old) (K.room keeper.new) (W.view w.old) (W.view w.new) }
    ensures cause { IfErr result (IsCaused K.has_disk (W.view w.old).disk_faults (W.view w.new).disk_faults) }
{
    let (rest, taken) = draft.take(nid);
    let Some(object) = taken else {
        let node = kept_table(alloc, keeper, w, nid)?;
        return Ok((rest, node));
    };
    match into_table(object) {
        Some(node) => Ok((rest, node)),
        None => Err(Stop::formless()),
    }
}
