//! Single nodes.
ghost use Rattle.std.specs.Prelude.{◌≡◌, ◌⊎◌, ◌%◌, ◌+◌, ◌<◌, ℕ, IsSome, None, Some, Option, IfErr, IfOk, OnOk, map};
ghost use Rattle.std.specs.Bool.{OnTrue, OnFalse};
ghost use Rattle.pst_base.specs.Ids.{index_of, nid_of};
ghost use Rattle.pst_base.specs.declared.ids.Nid.{Nid as Id};
ghost use Rattle.std.specs.Prelude.{true};
ghost use Rattle.mapi_values.specs.Keyed.{keys_ascend};
ghost use Rattle.mapi_values.specs.Messages.{Mes};
ghost use Rattle.mapi_values.specs.Tables.{find_row};
ghost use Rattle.mail_objects.specs.Forms.{Tbl};
ghost use Rattle.mail_tree.specs.Changing.{associated, contents, hierarchy};
ghost use Rattle.mail_tree.specs.Folders.{nid as nid_with};
ghost use Rattle.node_port.specs.Nodes.{Nodes, node_at};
ghost use Rattle.tree_look.specs.Faults.{Finds, IsFixed, IsOpened};
ghost use Rattle.mail_tree.specs.Standing.{HasContext, HasMail, HasTable, HasTables, ListsMessage};
ghost use Rattle.tree_look.specs.Seeing.{IsKnown, Learns, StaysKnown};
ghost use Rattle.tree_look.specs.Stops.{missed, sort_with};
ghost use Rattle.tree_look.specs.Walk.{Checked, Comes, IsCaused, Looks};

use crate::flags::{keep_flag, keep_name};
use crate::forms::{context_of, mail_of, table_of};
use crate::stops::{LookStop, TreeFault};
use mail_draft::is_read;
use mail_objects::{Context, TableNode};
use mail_tree::{Flags, ROOT_FOLDER, Sort};
use node_port::{NodeReader, NodeRec};
use pst_base::Nid;
use pst_outside::Outside;
use std::alloc::{AllocError, Global};

/// The node at an id, `None` where there is none.
fn node_at<W: Outside, K: NodeReader<W>>(
    alloc: Global,
    keeper: &mut K,
    w: &mut W,
    nid: Nid,
) -> Result<Option<NodeRec>, LookStop>
    ensures found { (N : Nodes) → K.holds keeper.old (W.view w.old) N → Finds N (λ node. node ≡ node_at N nid.bits) result }
    ensures looks { Looks (K.holds keeper.old (W.view w.old)) (K.holds keeper.new (W.view w.new)) (K.last keeper.old) (K.last keeper.new) (K.room keeper.old) (K.room keeper.new) (W.view w.old) (W.view w.new) }
    ensures cause { IfErr result (IsCaused K.has_disk (W.view w.old).disk_faults (W.view w.new).disk_faults) }
{
    Ok(keeper.get(alloc, w, nid)?)
}

/// The values of a node that every store has.
pub(crate) fn look_fixed<W: Outside, K: NodeReader<W>>(
    alloc: Global,
    keeper: &mut K,
    w: &mut W,
    nid: Nid,
) -> Result<Context, LookStop>
    ensures found { (N : Nodes) → K.holds keeper.old (W.view w.old) N → IsFixed nid.bits → Finds N (HasContext N nid.bits) result }
    ensures looks { Looks (K.holds keeper.old (W.view w.old)) (K.holds keeper.new (W.view w.new)) (K.last keeper.old) (K.last keeper.new) (K.room keeper.old) (K.room keeper.new) (W.view w.old) (W.view w.new) }
    ensures cause { IfErr result (IsCaused K.has_disk (W.view w.old).disk_faults (W.view w.new).disk_faults) }
{
    let Some(node) = node_at(alloc, keeper, w, nid)? else {
        return Err(LookStop::unfit(nid, TreeFault::Missing));
    };
    match context_of(alloc, &node) {
        Ok(context) => Ok(context),
        Err(why) => Err(LookStop::formless(nid, why)),
    }
}

/// A table that a folder must have.
fn need_table<W: Outside, K: NodeReader<W>>(
    alloc: Global,
    keeper: &mut K,
    w: &mut W,
    folder: Nid,
    nid: Nid,
) -> Result<TableNode, LookStop>
    ensures found { (N : Nodes) → K.holds keeper.old (W.view w.old) N → IsOpened N folder.bits → (nid.bits ≡ hierarchy folder.bits) ⊎ (nid.bits ≡ contents folder.bits) → Finds N (HasTable N nid.bits) result }
    ensures looks { Looks (K.holds keeper.old (W.view w.old)) (K.holds keeper.new (W.view w.new)) (K.last keeper.old) (K.last keeper.new) (K.room keeper.old) (K.room keeper.new) (W.view w.old) (W.view w.new) }
    ensures cause { IfErr result (IsCaused K.has_disk (W.view w.old).disk_faults (W.view w.new).disk_faults) }
{
    let Some(node) = node_at(alloc, keeper, w, nid)? else {
        return Err(LookStop::unfit(folder, TreeFault::Table));
    };
    match table_of(alloc, &node) {
        Ok(table) => Ok(table),
        Err(why) => Err(LookStop::formless(nid, why)),
    }
}

/// Looks at what is associated with a folder: a table, if it is there.
fn look_associated<W: Outside, K: NodeReader<W>>(
    alloc: Global,
    keeper: &mut K,
    w: &mut W,
    folder: Nid,
) -> Result<(), LookStop>
    ensures found { (N : Nodes) → K.holds keeper.old (W.view w.old) N → IsOpened N folder.bits → Finds N (λ u. (node_at N (associated folder.bits) ≡ None) ⊎ ((t : Tbl) × HasTable N (associated folder.bits) t)) result }
    ensures looks { Looks (K.holds keeper.old (W.view w.old)) (K.holds keeper.new (W.view w.new)) (K.last keeper.old) (K.last keeper.new) (K.room keeper.old) (K.room keeper.new) (W.view w.old) (W.view w.new) }
    ensures cause { IfErr result (IsCaused K.has_disk (W.view w.old).disk_faults (W.view w.new).disk_faults) }
{
    let nid = beside(folder, 0x0F);
    let Some(node) = node_at(alloc, keeper, w, nid)? else {
        return Ok(());
    };
    match table_of(alloc, &node) {
        Ok(_) => Ok(()),
        Err(why) => Err(LookStop::formless(nid, why)),
    }
}

/// Looks at a message that a folder lists, and keeps whether it is unread.
fn look_message<W: Outside, K: NodeReader<W>>(
    alloc: Global,
    keeper: &mut K,
    w: &mut W,
    folder: Nid,
    nid: Nid,
    flags: &mut Flags,
) -> Result<(), LookStop>
    ensures found { (N : Nodes) → K.holds keeper.old (W.view w.old) N → IsOpened N folder.bits → ListsMessage N folder.bits nid.bits → Finds N (λ u. (M : Mes) × HasMail N nid.bits M × (M.folder ≡ folder.bits)) result }
    ensures flags { (N : Nodes) → K.holds keeper.old (W.view w.old) N → IsOpened N folder.bits → ListsMessage N folder.bits nid.bits → OnOk result (Learns N flags.old flags.new) }
    ensures known { OnOk result (StaysKnown flags.old flags.new × IsKnown flags.new nid.bits) }
    ensures looks { Looks (K.holds keeper.old (W.view w.old)) (K.holds keeper.new (W.view w.new)) (K.last keeper.old) (K.last keeper.new) (K.room keeper.old) (K.room keeper.new) (W.view w.old) (W.view w.new) }
    ensures cause { IfErr result (IsCaused K.has_disk (W.view w.old).disk_faults (W.view w.new).disk_faults) }
{
    let Some(node) = node_at(alloc, keeper, w, nid)? else {
        return Err(LookStop::unfit(nid, TreeFault::Missing));
    };
    if node.parent.bits != folder.bits {
        return Err(LookStop::unfit(nid, TreeFault::Parent));
    }
    match mail_of(alloc, nid, &node) {
        Ok(mail) => {
            let unread = !is_read(&mail.message().props);
            Ok(keep_flag(flags, nid.bits, unread)?)
        }
        Err(why) => Err(LookStop::formless(nid, why)),
    }
}

/// Looks at what a row of a table of messages names, if it names a message.
fn look_row<W: Outside, K: NodeReader<W>>(
    alloc: Global,
    keeper: &mut K,
    w: &mut W,
    folder: Nid,
    row: Nid,
    flags: &mut Flags,
) -> Result<(), LookStop>
    ensures found { (N : Nodes) → K.holds keeper.old (W.view w.old) N → IsOpened N folder.bits → (t : Tbl) → HasTable N (contents folder.bits) t → IsSome (find_row row.bits t.table.rows)
        → Finds N (λ u. row.bits % 32 ≡ 4 → (M : Mes) × HasMail N row.bits M × (M.folder ≡ folder.bits)) result }
    ensures flags { (N : Nodes) → K.holds keeper.old (W.view w.old) N → IsOpened N folder.bits → (t : Tbl) → HasTable N (contents folder.bits) t → IsSome (find_row row.bits t.table.rows) → OnOk result (Learns N flags.old flags.new) }
    ensures known { OnOk result (StaysKnown flags.old flags.new × (row.bits % 32 ≡ 4 → IsKnown flags.new row.bits)) }
    ensures looks { Looks (K.holds keeper.old (W.view w.old)) (K.holds keeper.new (W.view w.new)) (K.last keeper.old) (K.last keeper.new) (K.room keeper.old) (K.room keeper.new) (W.view w.old) (W.view w.new) }
    ensures cause { IfErr result (IsCaused K.has_disk (W.view w.old).disk_faults (W.view w.new).disk_faults) }
{
    if row.bits % 32 != 4 {
        return Ok(());
    }
    look_message(alloc, keeper, w, folder, row, flags)
}

/// Looks at the messages that a folder lists, and keeps which are unread.
fn look_messages<W: Outside, K: NodeReader<W>>(
    alloc: Global,
    keeper: &mut K,
    w: &mut W,
    folder: Nid,
    table: &TableNode,
    flags: &mut Flags,
) -> Result<(), LookStop>
    ensures found { (N : Nodes) → K.holds keeper.old (W.view w.old) N → IsOpened N folder.bits → HasTable N (contents folder.bits) table.now
        → Finds N (λ u. (m : ℕ) → IsSome (find_row m table.now.table.rows) → m % 32 ≡ 4 → (M : Mes) × HasMail N m M × (M.folder ≡ folder.bits)) result }
    ensures flags { (N : Nodes) → K.holds keeper.old (W.view w.old) N → IsOpened N folder.bits → HasTable N (contents folder.bits) table.now → OnOk result (Learns N flags.old flags.new) }
    ensures known { OnOk result (StaysKnown flags.old flags.new × ((m : ℕ) → IsSome (find_row m table.now.table.rows) → m % 32 ≡ 4 → IsKnown flags.new m)) }
    ensures looks { Looks (K.holds keeper.old (W.view w.old)) (K.holds keeper.new (W.view w.new)) (K.last keeper.old) (K.last keeper.new) (K.room keeper.old) (K.room keeper.new) (W.view w.old) (W.view w.new) }
    ensures cause { IfErr result (IsCaused K.has_disk (W.view w.old).disk_faults (W.view w.new).disk_faults) }
{
    for row in table.table().rows() {
        look_row(alloc, keeper, w, folder, Nid { bits: row.0 }, flags)?;
    }
    Ok(())
}

/// The node beside a folder, of a kind.
fn beside(folder: Nid, kind: u32) -> Nid
    requires { kind < 32 }
    ensures { result.bits ≡ nid_of kind (index_of folder.bits) }
{
    Nid {
        bits: folder.bits / 32 * 32 + kind,
    }
}

/// The ids of the rows of a table.
fn row_ids(alloc: Global, table: &TableNode) -> Result<Vec<Nid>, AllocError>
    ensures ids { IfOk result (λ ids. ids.items ≡ map (λ r. nid_with r.0) table.now.table.rows) }
    ensures ascend { keys_ascend (λ r. r.0) 0 table.now.table.rows ≡ true }
{
    let mut ids = Vec::new(alloc);
    for row in table.table().rows() {
        ids.push(Nid { bits: row.0 })?;
    }
    Ok(ids)
}

/// Looks at the tables of a plain folder and at its messages, and gives the ids of the rows of its table of folders.
pub(crate) fn look_tables<W: Outside, K: NodeReader<W>>(
    alloc: Global,
    keeper: &mut K,
    w: &mut W,
    folder: Nid,
    flags: &mut Flags,
) -> Result<Vec<Nid>, LookStop>
    ensures found { (N : Nodes) → K.holds keeper.old (W.view w.old) N → IsOpened N folder.bits
        → Finds N (λ ids. HasTables N folder.bits × ((t : Tbl) × HasTable N (hierarchy folder.bits) t × (keys_ascend (λ r. r.0) 0 t.table.rows ≡ true) × (ids.items ≡ map (λ r. nid_with r.0) t.table.rows))) result }
    ensures flags { (N : Nodes) → K.holds keeper.old (W.view w.old) N → IsOpened N folder.bits → OnOk result (Learns N flags.old flags.new) }
    ensures known { (N : Nodes) → K.holds keeper.old (W.view w.old) N → IsOpened N folder.bits → OnOk result (StaysKnown flags.old flags.new × ((m : ℕ) → ListsMessage N folder.bits m → IsKnown flags.new m)) }
    ensures looks { Looks (K.holds keeper.old (W.view w.old)) (K.holds keeper.new (W.view w.new)) (K.last keeper.old) (K.last keeper.new) (K.room keeper.old) (K.room keeper.new) (W.view w.old) (W.view w.new) }
    ensures cause { IfErr result (IsCaused K.has_disk (W.view w.old).disk_faults (W.view w.new).disk_faults) }
{
    let folders = need_table(alloc, keeper, w, folder, beside(folder, 0x0D))?;
    let messages = need_table(alloc, keeper, w, folder, beside(folder, 0x0E))?;
    look_associated(alloc, keeper, w, folder)?;
    look_messages(alloc, keeper, w, folder, &messages, flags)?;
    Ok(row_ids(alloc, &folders)?)
}

/// Whether a listed folder names the folder that lists it.
fn suits(above: Option<Nid>, node: &NodeRec) -> bool
    ensures { OnTrue result ((p : Id) → above ≡ Some p → node.now.parent.bits ≡ p.bits) × OnFalse result ((p : Id) × (above ≡ Some p) × (node.now.parent.bits ≡ p.bits → ⊥)) }
{
    match above {
        Some(parent) => node.parent.bits == parent.bits,
        None => true,
    }
}

/// Looks at the folder itself that a row names, if it names one, and keeps its name. So many folders more may stand one below another.
pub(crate) fn check_row<W: Outside, K: NodeReader<W>>(
    alloc: Global,
    keeper: &mut K,
    w: &mut W,
    above: Option<Nid>,
    row: Nid,
    left: u8,
    flags: &mut Flags,
) -> Result<Option<Sort>, LookStop>
    ensures found { (N : Nodes) → K.holds keeper.old (W.view w.old) N → (n : ℕ) → n + left ≡ 65 → Comes N above n row.bits → Finds N (Checked N above row.bits) result }
    ensures flags { (N : Nodes) → K.holds keeper.old (W.view w.old) N → (n : ℕ) → Comes N above n row.bits → OnOk result (Learns N flags.old flags.new) }
    ensures known { OnOk result (StaysKnown flags.old flags.new) }
    ensures left { IfOk result (λ s. IsSome s → 0 < left) }
    ensures looks { Looks (K.holds keeper.old (W.view w.old)) (K.holds keeper.new (W.view w.new)) (K.last keeper.old) (K.last keeper.new) (K.room keeper.old) (K.room keeper.new) (W.view w.old) (W.view w.new) }
    ensures cause { IfErr result (IsCaused K.has_disk (W.view w.old).disk_faults (W.view w.new).disk_faults) }
{
    let Some(sort) = sort_of(row) else {
        return Ok(None);
    };
    if above.is_some() && row.bits == ROOT_FOLDER {
        return Err(LookStop::unfit(row, TreeFault::Cycle));
    }
    let Some(node) = node_at(alloc, keeper, w, row)? else {
        return missing(row, sort);
    };
    if !suits(above, &node) {
        return Err(LookStop::unfit(row, TreeFault::Parent));
    }
    if left == 0 {
        return Err(LookStop::unfit(row, TreeFault::Depth));
    }
    match context_of(alloc, &node) {
        Ok(context) => {
            keep_name(alloc, flags, row.bits, context.props())?;
            Ok(Some(sort))
        }
        Err(why) => Err(LookStop::formless(row, why)),
    }
}

/// Of which sort a folder with this id is.
fn sort_of(row: Nid) -> Option<Sort>
    ensures { result ≡ sort_with row.bits }
{
    match row.bits % 32 {
        2 => Some(Sort::Plain),
        3 => Some(Sort::Foreign),
        _ => None,
    }
}

/// What a row names whose node isn't there: a plain folder is missed, a search folder isn't named then.
fn missing(row: Nid, sort: Sort) -> Result<Option<Sort>, LookStop>
    ensures { result ≡ missed row sort }
{
    match sort {
        Sort::Plain => Err(LookStop::unfit(row, TreeFault::Missing)),
        Sort::Foreign => Ok(None),
    }
}
