//! The rows of a search's list after messages were touched.
ghost use Rattle.std.specs.Prelude.{◌≡◌, IfOk, OnOk};
ghost use Rattle.std.specs.List.{list_any};
ghost use Rattle.mail_searches.specs.Relisting.{by_delta, is_gone, props_of, takes_row};
ghost use Rattle.search_results.specs.Following.{drop_gone, relisted_by, with_list, without_gone};

use crate::touched::TouchedMessage;
use live_search::Delta;
use mail_objects::TableNode;
use mail_searches::relist;
use mapi_values::{Props, Table, drop_row};
use std::alloc::{AllocError, Global};

/// Whether a message is there no more.
fn is_gone(touch: &TouchedMessage) -> bool
    ensures { result ≡ is_gone touch.now }
{
    touch.new.is_none()
}

/// Whether one of these messages is there no more.
pub(crate) fn some_gone(touches: &[TouchedMessage]) -> bool
    ensures { result ≡ list_any is_gone touches.now }
{
    touches.iter().any(|touch| is_gone(touch))
}

/// Whether one of these messages is there no more, and has a row.
pub(crate) fn takes_row(table: &Table, touches: &[TouchedMessage]) -> bool
    ensures { result ≡ takes_row table.now.rows touches.now }
{
    touches.iter().any(|touch| is_gone(touch) && table.row(touch.nid.bits).is_some())
}

/// Brings the row of a touched message in the table of a running search in order, by what becomes of the message in the list.
fn relist_one(
    alloc: Global,
    table: &mut Table,
    touch: &TouchedMessage,
    delta: Delta,
) -> Result<(), AllocError>
    ensures rows { OnOk result (table.new.rows ≡ by_delta delta touch.now.anew table.old.columns touch.now.nid (props_of touch.now.new) table.old.rows) }
    ensures columns { table.new.columns ≡ table.old.columns }
    ensures kept { table.new.kept ≡ table.old.kept }
    ensures ends { table.new.ends ≡ table.old.ends }
{
    match &touch.new {
        Some(mail) => relist(
            alloc,
            table,
            delta,
            touch.anew,
            touch.nid,
            &mail.message().props,
        ),
        None => relist(
            alloc,
            table,
            delta,
            touch.anew,
            touch.nid,
            &Props::new(alloc),
        ),
    }
}

/// The list of a running search after messages were touched, by what becomes of each in it. The list is lost with an `Err`.
pub(crate) fn relisted(
    alloc: Global,
    node: TableNode,
    touches: &[TouchedMessage],
    deltas: &[Delta],
) -> Result<TableNode, AllocError>
    ensures { IfOk result (λ t. t ≡ with_list (relisted_by node.table.columns touches.now deltas.now node.table.rows) node) }
{
    let parent = node.parent();
    let mut table = node.into_table();
    for (touch, delta) in touches.iter().zip(deltas) {
        relist_one(alloc, &mut table, touch, *delta)?;
    }
    Ok(TableNode::new(parent, table))
}

/// Takes the row of a message out of a table where that is there no more.
fn drop_gone(table: &mut Table, touch: &TouchedMessage)
    ensures rows { table.new.rows ≡ drop_gone touch.now table.old.rows }
    ensures columns { table.new.columns ≡ table.old.columns }
    ensures kept { table.new.kept ≡ table.old.kept }
    ensures ends { table.new.ends ≡ table.old.ends }
{
    if is_gone(touch) {
        let _was_there = drop_row(table, touch.nid.bits);
    }
}

/// The list of a search that isn't running without the rows of messages that are there no more.
pub(crate) fn without_gone(node: TableNode, touches: &[TouchedMessage]) -> TableNode
    ensures { result ≡ with_list (without_gone touches.now node.table.rows) node }
{
    let parent = node.parent();
    let mut table = node.into_table();
    for touch in touches {
        drop_gone(&mut table, touch);
    }
    TableNode::new(parent, table)
}
