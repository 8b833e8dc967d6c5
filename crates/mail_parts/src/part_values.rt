//! The values of attachments, and what they hold.
ghost use Rattle.std.specs.Prelude.{◌≡◌, ◌∷◌, [], IfOk, OnOk, length};
ghost use Rattle.mapi_values.specs.Properties.{put};
ghost use Rattle.command_text.specs.declared.command.Held.TheVariants as held;
ghost use Rattle.mail_tree.specs.Parts.{attachment_props, held_subnodes, is_too_long, lengthened, object_bytes, part_with, with_bytes};
ghost use Rattle.mail_tree.specs.Values.{value};
ghost use Rattle.pst_base.specs.Subs.{flattened};

use command_text::Held;
use mail_draft::{put_number, put_text};
use mapi_values::tags::{
    PID_TAG_ATTACH_DATA_BINARY, PID_TAG_ATTACH_FILENAME, PID_TAG_ATTACH_METHOD,
    PID_TAG_ATTACH_SIZE, PID_TAG_RENDERING_POSITION, PTYP_OBJECT,
};
use mapi_values::{Part, Props, Tag, Units, Value, fits};
use node_values::copy_sub;
use pst_base::{Bytes, Nid, Sub, Subs};
use std::alloc::{AllocError, Global};

/// The message of an attachment ([MS-OXPROPS] 2.590): its subnode, and its size.
const PID_TAG_ATTACH_DATA_OBJECT: Tag = Tag {
    id: PID_TAG_ATTACH_DATA_BINARY.id,
    kind: PTYP_OBJECT,
};

/// How an attachment holds data of its own, or a message ([MS-OXCMSG] 2.2.2.9).
const BY_VALUE: u64 = 1;

const EMBEDDED_MESSAGE: u64 = 5;

/// How long a command may make the data of an attachment.
const MOST_DATA: usize = 8_000_000;

/// Puts the data of an attachment, in place of the value of its id. An `Err` says that there are 2^32 bytes or more, or that memory ran out.
fn put_data(props: &mut Props, bytes: Bytes) -> Result<(), AllocError>
    ensures { OnOk result (props.new ≡ put (value 0x3701 0x0102 bytes) props.old) }
{
    let tag = PID_TAG_ATTACH_DATA_BINARY;
    if !fits(tag.kind, bytes.len()) {
        return Err(AllocError);
    }
    props.put(Value::new(tag, bytes))
}

/// The object that an attachment has for a message: its subnode, and its size.
fn object_bytes(alloc: Global, nid: Nid, size: u32) -> Result<Bytes, AllocError>
    ensures bytes { IfOk result (λ bytes. bytes ≡ object_bytes nid.bits size) }
    ensures len { IfOk result (λ bytes. length bytes ≡ 8) }
{
    let mut bytes = Vec::from_slice(alloc, &nid.bits.to_le_bytes())?;
    bytes.extend_from_slice(&size.to_le_bytes())?;
    Ok(Bytes::from_vec(bytes))
}

/// Puts what an attachment with a message has in place of data: the message's size, its subnode, and that it is one.
#[tactic(auto, unfolding(mapi_values::specs::Values::fits, mapi_values::specs::Values::in_field))]
fn put_object(alloc: Global, props: &mut Props, nid: Nid, size: u32) -> Result<(), AllocError>
    ensures { OnOk result (props.new ≡ put (value 0x3701 0x000D (object_bytes nid.bits size)) props.old) }
{
    let bytes = object_bytes(alloc, nid, size)?;
    props.put(Value::new(PID_TAG_ATTACH_DATA_OBJECT, bytes))
}

/// The values of an attachment that holds this: how long it is, its data or its message, its name, which of both it holds, and that the text shows it nowhere. An `Err` says that memory ran out, or that the data or the name is too long for a value.
pub(crate) fn attachment_props(
    alloc: Global,
    name: &Units,
    held: &Held,
) -> Result<Props, AllocError>
    ensures { IfOk result (λ p. p ≡ attachment_props name.now held.now) }
{
    let mut props = Props::new(alloc);
    let (size, method) = match held {
        Held::Data(bytes) => {
            put_data(&mut props, bytes.copy(alloc)?)?;
            (bytes.len() as u64, BY_VALUE)
        }
        Held::Message { size, node } => {
            put_object(alloc, &mut props, node.nid, *size)?;
            (u64::from(*size), EMBEDDED_MESSAGE)
        }
    };
    put_number(alloc, &mut props, PID_TAG_ATTACH_SIZE.id, size)?;
    put_text(alloc, &mut props, PID_TAG_ATTACH_FILENAME.id, name)?;
    put_number(alloc, &mut props, PID_TAG_ATTACH_METHOD.id, method)?;
    put_number(
        alloc,
        &mut props,
        PID_TAG_RENDERING_POSITION.id,
        u64::from(u32::MAX),
    )?;
    Ok(props)
}

/// The subnodes that an attachment has for what it holds, beside those of its values.
pub(crate) fn held_subnodes(alloc: Global, held: &Held) -> Result<Subs, AllocError>
    ensures { IfOk result (λ subs. subs ≡ held_subnodes held.now) }
{
    match held {
        Held::Data(_) => Ok(Subs::new(alloc)),
        Held::Message { node, .. } => one_subnode(alloc, node),
    }
}

/// A copy of this subnode alone.
fn one_subnode(alloc: Global, node: &Sub) -> Result<Subs, AllocError>
    ensures { IfOk result (λ subs. subs ≡ flattened (node.now ∷ [])) }
{
    let mut entries = Vec::with_capacity(alloc, 1)?;
    entries.push(copy_sub(alloc, node)?)?;
    Ok(Subs::from_vec(entries))
}

/// Whether data would get longer with these bytes than a command may make it.
#[tactic(auto, unfolding(mail_tree::specs::Parts::is_too_long))]
pub(crate) fn is_too_long(old: &[u8], more: &[u8]) -> bool
    ensures { result ≡ is_too_long old.now more.now }
{
    more.len() > 0 && (old.len() > MOST_DATA || more.len() > MOST_DATA - old.len())
}

/// Data with these bytes behind it, in a place that has room for both; the data as it is where it would be too long.
#[tactic(auto, unfolding(mail_tree::specs::Parts::lengthened))]
pub(crate) fn lengthened(alloc: Global, old: &[u8], more: &[u8]) -> Result<Bytes, AllocError>
    ensures { IfOk result (λ b. b ≡ lengthened old.now more.now) }
{
    if is_too_long(old, more) {
        return Bytes::from_slice(alloc, old);
    }
    let mut data = Vec::with_capacity(alloc, old.len().saturating_add(more.len()))?;
    data.extend_from_slice(old)?;
    data.extend_from_slice(more)?;
    Ok(Bytes::from_vec(data))
}

/// The same attachment with other data, and with how long that is. It is lost with an `Err`.
pub(crate) fn with_data(alloc: Global, part: Part, bytes: Bytes) -> Result<Part, AllocError>
    ensures { IfOk result (λ p. p ≡ part_with (with_bytes bytes part.props) part) }
{
    let len = bytes.len() as u64;
    let mut props = part.props;
    put_data(&mut props, bytes)?;
    put_number(alloc, &mut props, PID_TAG_ATTACH_SIZE.id, len)?;
    Ok(Part {
        nid: part.nid,
        props,
        kept: part.kept,
    })
}
