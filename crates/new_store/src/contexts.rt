//! The values of a new store and of its folders.
ghost use Rattle.std.specs.Prelude.{◌≡◌, IfOk, OnErr, OnOk};
ghost use Rattle.mapi_values.specs.Properties.{put};
ghost use Rattle.mail_tree.specs.Start.{context, names_props, root_props, store_props};
ghost use Rattle.mail_tree.specs.Values.{folder_props, value};

use crate::folders::{DELETED, SEARCH_ROOT, TOP};
use crate::keys::{entry_id, record_key};
use mail_draft::{put_number, put_text, put_truth};
use mail_objects::{Context, Object};
use mapi_values::tags::{
    PID_TAG_CONTENT_COUNT, PID_TAG_CONTENT_UNREAD_COUNT, PID_TAG_DISPLAY_NAME,
    PID_TAG_FINDER_ENTRY_ID, PID_TAG_IPM_SUBTREE_ENTRY_ID, PID_TAG_IPM_WASTEBASKET_ENTRY_ID,
    PID_TAG_NAMEID_BUCKET_COUNT, PID_TAG_NAMEID_STREAM_ENTRY, PID_TAG_NAMEID_STREAM_GUID,
    PID_TAG_NAMEID_STREAM_STRING, PID_TAG_RECORD_KEY, PID_TAG_SUBFOLDERS, PTYP_BINARY,
};
use mapi_values::{Props, Tag, Units, Value, fits};
use pst_base::{Bytes, Nid, Subs};
use std::alloc::{AllocError, Global};

/// A node of these values below a parent.
pub fn context(alloc: Global, parent: u32, props: Props) -> Object
    ensures { result ≡ context parent props }
{
    Object::Context(Context::new(Nid { bits: parent }, props, Subs::new(alloc)))
}

/// Puts bytes, in place of the value of its id. An `Err` changes nothing: memory ran out, or there are 2^32 bytes or more.
fn put_binary(props: &mut Props, id: u16, bytes: Vec<u8>) -> Result<(), AllocError>
    ensures ok { OnOk result (props.new ≡ put (value id 0x0102 bytes.items) props.old) }
    ensures err { OnErr result (props.new ≡ props.old) }
{
    if !fits(PTYP_BINARY, bytes.len()) {
        return Err(AllocError);
    }
    props.put(Value::new(
        Tag {
            id,
            kind: PTYP_BINARY,
        },
        Bytes::from_vec(bytes),
    ))
}

/// The store's own values: its key, its name, and the folders that it names.
#[tactic(auto, unfolding(mail_tree::specs::Start::store_props))]
pub fn store_props(alloc: Global, name: &Units) -> Result<Props, AllocError>
    ensures { IfOk result (λ props. props ≡ store_props name.now) }
{
    let key = record_key(alloc, name)?;
    let top = entry_id(alloc, key.as_slice(), TOP)?;
    let deleted = entry_id(alloc, key.as_slice(), DELETED)?;
    let searches = entry_id(alloc, key.as_slice(), SEARCH_ROOT)?;
    let mut props = Props::new(alloc);
    put_binary(&mut props, PID_TAG_RECORD_KEY.id, key)?;
    put_text(alloc, &mut props, PID_TAG_DISPLAY_NAME.id, name)?;
    put_binary(&mut props, PID_TAG_IPM_SUBTREE_ENTRY_ID.id, top)?;
    put_binary(&mut props, PID_TAG_IPM_WASTEBASKET_ENTRY_ID.id, deleted)?;
    put_binary(&mut props, PID_TAG_FINDER_ENTRY_ID.id, searches)?;
    Ok(props)
}

/// The values of the node of names, of which there are none.
pub fn names_props(alloc: Global) -> Result<Props, AllocError>
    ensures { IfOk result (λ props. props ≡ names_props) }
{
    let mut props = Props::new(alloc);
    put_number(alloc, &mut props, PID_TAG_NAMEID_BUCKET_COUNT.id, 251)?;
    put_binary(&mut props, PID_TAG_NAMEID_STREAM_GUID.id, Vec::new(alloc))?;
    put_binary(&mut props, PID_TAG_NAMEID_STREAM_ENTRY.id, Vec::new(alloc))?;
    put_binary(&mut props, PID_TAG_NAMEID_STREAM_STRING.id, Vec::new(alloc))?;
    Ok(props)
}

/// A name of ASCII characters.
fn name_of(alloc: Global, text: &[u8]) -> Result<Units, AllocError>
    ensures { IfOk result (λ units. units ≡ text.now) }
{
    let mut units = Vec::with_capacity(alloc, text.len())?;
    for byte in text {
        units.push(u16::from(*byte))?;
    }
    Ok(Units::from_vec(units))
}

/// The values of a new folder of this name, which is ASCII.
pub fn folder_props(alloc: Global, name: &[u8]) -> Result<Props, AllocError>
    ensures { IfOk result (λ props. props ≡ folder_props name.now) }
{
    let name = name_of(alloc, name)?;
    let mut props = Props::new(alloc);
    put_text(alloc, &mut props, PID_TAG_DISPLAY_NAME.id, &name)?;
    put_number(alloc, &mut props, PID_TAG_CONTENT_COUNT.id, 0)?;
    put_number(alloc, &mut props, PID_TAG_CONTENT_UNREAD_COUNT.id, 0)?;
    put_truth(alloc, &mut props, PID_TAG_SUBFOLDERS.id, false)?;
    Ok(props)
}

/// The root's values: those of a new folder without a name, which has folders.
pub fn root_props(alloc: Global) -> Result<Props, AllocError>
    ensures { IfOk result (λ props. props ≡ root_props) }
{
    let mut props = folder_props(alloc, b"")?;
    put_truth(alloc, &mut props, PID_TAG_SUBFOLDERS.id, true)?;
    Ok(props)
}
