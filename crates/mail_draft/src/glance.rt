//! What a node tells of a message, or of a table's rows, without its subnodes.
ghost use Rattle.std.specs.Prelude.{◌≡◌, ℕ, List, Bool, IfErr, IfOk, IfSome, IsTrue, Some, [], length, option_copied};
ghost use Rattle.std.specs.Option.{unwrap_or};
ghost use Rattle.value_text.specs.UnitBytes.{units_in};
ghost use Rattle.mapi_values.specs.Messages.{Mes};
ghost use Rattle.mapi_values.specs.Values.{Val, fits};
ghost use Rattle.content_glance.specs.Glances.{IsTold};
ghost use Rattle.mail_objects.specs.Forms.{Tbl};
ghost use Rattle.mail_tree.specs.Tree.{Shown, Tree, object_at};
ghost use Rattle.mail_tree.specs.Values.{number_of, text_of};
ghost use Rattle.mail_draft.specs.Answers.{IsCalm, IsCaused, Looks, Says};
ghost use Rattle.mail_draft.specs.Glancing.{AreOfTable, HasContent, HoldsMessage, IsContent, TellsHas, TellsRows, TellsText, TellsValue, told_bytes};
ghost use Rattle.mail_draft.specs.Listed.{has_row, row_count};
ghost use Rattle.mail_draft.specs.Unread.{unread_of};

use crate::row_look::row_by_blocks;
use crate::stop::Stop;
use content_glance::{Glance, glance_at, has_row_at, row_count_at};
use mapi_values::Units;
use mapi_values::tags::{PID_TAG_MESSAGE_FLAGS, PTYP_INTEGER_32, PTYP_STRING};
use node_port::{NodeReader, NodeRec};
use pst_base::{Nid, u32_at};
use pst_outside::Outside;
use std::alloc::{AllocError, Global};
use value_text::units_of_bytes;

/// The node at an id without its subnodes, `None` where there is none.
pub fn content_at<W: Outside, K: NodeReader<W>>(
    alloc: Global,
    keeper: &mut K,
    w: &mut W,
    nid: Nid,
) -> Result<Option<NodeRec>, Stop>
    ensures answer { (T : Tree) → Shown (K.holds keeper.old (W.view w.old)) (K.last keeper.old) T → HasContent T nid.bits result }
    ensures looks { Looks (K.holds keeper.old (W.view w.old)) (K.holds keeper.new (W.view w.new)) (K.last keeper.old) (K.last keeper.new) (K.room keeper.old) (K.room keeper.new) (W.view w.old) (W.view w.new) }
    ensures cause { IfErr result (IsCaused K.has_disk (W.view w.old).disk_faults (W.view w.new).disk_faults) }
{
    Ok(keeper.get_content(alloc, w, nid)?)
}

/// The node of the message at an id, without its subnodes, for `glance_of`.
pub fn message_content<W: Outside, K: NodeReader<W>>(
    alloc: Global,
    keeper: &mut K,
    w: &mut W,
    nid: Nid,
) -> Result<NodeRec, Stop>
    ensures answer { (T : Tree) → Shown (K.holds keeper.old (W.view w.old)) (K.last keeper.old) T → HoldsMessage T nid.bits result }
    ensures looks { Looks (K.holds keeper.old (W.view w.old)) (K.holds keeper.new (W.view w.new)) (K.last keeper.old) (K.last keeper.new) (K.room keeper.old) (K.room keeper.new) (W.view w.old) (W.view w.new) }
    ensures cause { IfErr result (IsCaused K.has_disk (W.view w.old).disk_faults (W.view w.new).disk_faults) }
{
    match content_at(alloc, keeper, w, nid)? {
        Some(node) => Ok(node),
        None => Err(Stop::formless()),
    }
}

/// What a message's node tells of the value with an id.
pub fn glance_of(alloc: Global, node: &NodeRec, id: u16) -> Result<Glance, Stop>
    ensures told { (M : Mes) → IsContent node.now M → TellsValue id M.props result }
    ensures cause { (disk : Bool) (before after : ℕ) → IfErr result (IsCaused disk before after) }
{
    match glance_at(alloc, node.blocks.as_slice(), id)? {
        Some(glance) => Ok(glance),
        None => Err(Stop::formless()),
    }
}

/// The bytes of the value that is told, if it is of this kind.
fn bytes_told(glance: &Glance, kind: u16) -> Option<&[u8]>
    ensures bytes { option_copied result ≡ told_bytes kind glance.now }
    ensures fit { IfSome result (λ bytes. IsTrue (fits kind (length bytes.now))) }
{
    let Glance::Held(value) = glance else {
        return None;
    };
    if value.kind() == kind {
        Some(value.bytes())
    } else {
        None
    }
}

/// The number that a value is, 0 where there is none: a number never stands in a subnode.
pub fn number_told(glance: &Glance) -> u32
    ensures { (id : ℕ) (props : List Val) → IsTold id props (Some glance.now) → result ≡ number_of id props }
{
    match bytes_told(glance, PTYP_INTEGER_32) {
        Some(bytes) => u32_at(bytes, 0),
        None => 0,
    }
}

/// The text that is told, empty where there is none.
fn text_in(alloc: Global, glance: &Glance) -> Result<Units, AllocError>
    ensures { IfOk result (λ units. units ≡ units_in (unwrap_or (told_bytes 0x001F glance.now) [])) }
{
    match bytes_told(glance, PTYP_STRING) {
        Some(bytes) => units_of_bytes(alloc, bytes),
        None => Ok(Units::from_vec(Vec::new(alloc))),
    }
}

/// The text that a value is, empty where there is none, or `None` where it stands in a subnode.
pub fn text_told(alloc: Global, glance: &Glance) -> Result<Option<Units>, AllocError>
    ensures { IfOk result (λ told. (id : ℕ) (props : List Val) → IsTold id props (Some glance.now) → TellsText glance.now (text_of id props) told) }
{
    match glance {
        Glance::Below => Ok(None),
        _ => Ok(Some(text_in(alloc, glance)?)),
    }
}

/// Whether the message at an id is unread. Its subnodes aren't looked at.
pub fn unread_at<W: Outside, K: NodeReader<W>>(
    alloc: Global,
    keeper: &mut K,
    w: &mut W,
    nid: Nid,
) -> Result<bool, Stop>
    ensures answer { (T : Tree) → Shown (K.holds keeper.old (W.view w.old)) (K.last keeper.old) T → Says (λ b. b) (unread_of (object_at T nid.bits)) result }
    ensures looks { Looks (K.holds keeper.old (W.view w.old)) (K.holds keeper.new (W.view w.new)) (K.last keeper.old) (K.last keeper.new) (K.room keeper.old) (K.room keeper.new) (W.view w.old) (W.view w.new) }
    ensures cause { IfErr result (IsCaused K.has_disk (W.view w.old).disk_faults (W.view w.new).disk_faults) }
{
    let node = message_content(alloc, keeper, w, nid)?;
    let flags = glance_of(alloc, &node, PID_TAG_MESSAGE_FLAGS.id)?;
    Ok(number_told(&flags) % 2 != 1)
}

/// Whether the table whose data a node has has a row.
fn row_told(node: &NodeRec, row: Nid) -> Result<bool, Stop>
    ensures told { (t : Tbl) → AreOfTable node.now t → TellsHas row.bits t result }
    ensures calm { IfErr result IsCalm }
{
    match has_row_at(node.blocks.as_slice(), row.bits) {
        Some(has) => Ok(has),
        None => Err(Stop::formless()),
    }
}

/// Whether the table at an id of the nodes has a row, of all data of its node.
fn row_by_content<W: Outside, K: NodeReader<W>>(
    alloc: Global,
    keeper: &mut K,
    w: &mut W,
    table: Nid,
    row: Nid,
) -> Result<bool, Stop>
    ensures answer { (T : Tree) → Shown (K.holds keeper.old (W.view w.old)) (K.last keeper.old) T → Says (λ b. b) (has_row T table.bits row.bits) result }
    ensures looks { Looks (K.holds keeper.old (W.view w.old)) (K.holds keeper.new (W.view w.new)) (K.last keeper.old) (K.last keeper.new) (K.room keeper.old) (K.room keeper.new) (W.view w.old) (W.view w.new) }
    ensures cause { IfErr result (IsCaused K.has_disk (W.view w.old).disk_faults (W.view w.new).disk_faults) }
{
    match content_at(alloc, keeper, w, table)? {
        Some(node) => row_told(&node, row),
        None => Err(Stop::formless()),
    }
}

/// Whether the table at an id of the nodes has a row. Neither the other rows nor the table's subnodes are read, and of its data the blocks on the way to the row alone, if the table is of the form that this program writes.
pub fn has_row<W: Outside, K: NodeReader<W>>(
    alloc: Global,
    keeper: &mut K,
    w: &mut W,
    table: Nid,
    row: Nid,
) -> Result<bool, Stop>
    ensures answer { (T : Tree) → Shown (K.holds keeper.old (W.view w.old)) (K.last keeper.old) T → Says (λ b. b) (has_row T table.bits row.bits) result }
    ensures looks { Looks (K.holds keeper.old (W.view w.old)) (K.holds keeper.new (W.view w.new)) (K.last keeper.old) (K.last keeper.new) (K.room keeper.old) (K.room keeper.new) (W.view w.old) (W.view w.new) }
    ensures cause { IfErr result (IsCaused K.has_disk (W.view w.old).disk_faults (W.view w.new).disk_faults) }
{
    if let Some(has) = row_by_blocks(alloc, keeper, w, table, row)? {
        return Ok(has);
    }
    row_by_content(alloc, keeper, w, table, row)
}

/// How many rows the table whose data a node has has.
fn rows_told(alloc: Global, node: &NodeRec) -> Result<usize, Stop>
    ensures told { (t : Tbl) → AreOfTable node.now t → TellsRows t result }
    ensures calm { IfErr result IsCalm }
{
    match row_count_at(alloc, node.blocks.as_slice())? {
        Some(count) => Ok(count),
        None => Err(Stop::formless()),
    }
}

/// How many rows the table at an id of the nodes has. Neither the rows nor the table's subnodes are read.
pub fn row_count<W: Outside, K: NodeReader<W>>(
    alloc: Global,
    keeper: &mut K,
    w: &mut W,
    table: Nid,
) -> Result<usize, Stop>
    ensures answer { (T : Tree) → Shown (K.holds keeper.old (W.view w.old)) (K.last keeper.old) T → Says (λ n. n) (row_count T table.bits) result }
    ensures looks { Looks (K.holds keeper.old (W.view w.old)) (K.holds keeper.new (W.view w.new)) (K.last keeper.old) (K.last keeper.new) (K.room keeper.old) (K.room keeper.new) (W.view w.old) (W.view w.new) }
    ensures cause { IfErr result (IsCaused K.has_disk (W.view w.old).disk_faults (W.view w.new).disk_faults) }
{
    match content_at(alloc, keeper, w, table)? {
        Some(node) => rows_told(alloc, &node),
        None => Err(Stop::formless()),
    }
}
