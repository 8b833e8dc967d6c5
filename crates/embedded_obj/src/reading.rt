//! The message that an attachment holds.
ghost use Rattle.std.specs.Prelude.{◌≡◌, IfOk, IfSome, IsTrue, length, option_copied};
ghost use Rattle.mapi_values.specs.Values.{fits};
ghost use Rattle.mail_tree.specs.Values.{bytes_of, number_of};
ghost use Rattle.embedded_obj.specs.Embedding.{IsInner, embedded_in, message_named, placeless};

use mail_objects::{Mail, read_mail};
use mapi_values::tags::{
    PID_TAG_ATTACH_DATA_OBJECT, PID_TAG_ATTACH_METHOD, PTYP_INTEGER_32, PTYP_OBJECT,
};
use mapi_values::{Part, Props};
use node_port::NodeRec;
use node_values::Finder;
use pst_base::{Nid, Sub, u32_at};
use std::alloc::{AllocError, Global};

/// The method of an attachment that says that it is a message.
const EMBEDDED_MESSAGE: u32 = 5;

/// The kind of a message's id.
const KIND_OF_MESSAGES: u8 = 4;

/// The bytes of the value of this id, if it is of this kind.
fn bytes_of(props: &Props, id: u16, kind: u16) -> Option<&[u8]>
    ensures bytes { option_copied result ≡ bytes_of id kind props.now }
    ensures fit { IfSome result (λ bytes. IsTrue (fits kind (length bytes.now))) }
{
    let value = props.get(id)?;
    if value.kind() == kind {
        Some(value.bytes())
    } else {
        None
    }
}

/// How an attachment with these values holds what it holds, 0 where it doesn't say.
fn method_of(props: &Props) -> u32
    ensures { result ≡ number_of 0x3705 props.now }
{
    match bytes_of(props, PID_TAG_ATTACH_METHOD.id, PTYP_INTEGER_32) {
        Some(bytes) => u32_at(bytes, 0),
        None => 0,
    }
}

/// The subnode of a message's kind that an object names.
fn message_named(object: &[u8]) -> Option<u32>
    ensures { result ≡ message_named object.now }
{
    if object.len() != 8 {
        return None;
    }
    let nid = Nid {
        bits: u32_at(object, 0),
    };
    if nid.kind() == KIND_OF_MESSAGES {
        Some(nid.bits)
    } else {
        None
    }
}

/// The subnode that an attachment with these values has for a message, if it says that it is one ([MS-PST] 2.4.6.2.3).
#[tactic(auto, unfolding(crate::specs::Embedding::embedded_in))]
fn embedded_in(props: &Props) -> Option<u32>
    ensures { result ≡ embedded_in props.now }
{
    if method_of(props) != EMBEDDED_MESSAGE {
        return None;
    }
    let object = bytes_of(props, PID_TAG_ATTACH_DATA_OBJECT.id, PTYP_OBJECT)?;
    message_named(object)
}

/// The node of a message that stands in this subnode, and in no folder.
fn placeless(alloc: Global, sub: &Sub) -> Result<NodeRec, AllocError>
    ensures { IfOk result (λ node. node ≡ placeless sub.now.blocks sub.now.subs) }
{
    Ok(NodeRec {
        parent: Nid { bits: 0 },
        blocks: sub.blocks.copy(alloc)?,
        subs: sub.subs.copy(alloc)?,
    })
}

/// The message that an attachment holds: its id is that of its subnode, and it stands in no folder. `None` comes exactly where the attachment doesn't say that it is a message, or the subnode that it names isn't there, isn't of a message's kind or is no message. An `Err` says that memory ran out.
pub fn inner(alloc: Global, part: &Part) -> Result<Option<Mail>, AllocError>
    ensures { IfOk result (IsInner part.now) }
{
    let Some(bits) = embedded_in(&part.props) else {
        return Ok(None);
    };
    let finder = Finder::new(alloc, &part.kept)?;
    let Some(sub) = finder.find(bits) else {
        return Ok(None);
    };
    let node = placeless(alloc, sub)?;
    read_mail(alloc, Nid { bits }, &node)
}
