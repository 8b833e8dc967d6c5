//! Messages with other values, in other places, and new ones.
ghost use Rattle.std.specs.Prelude.{◌≡◌, ◌+◌, ◌++◌, IfOk, Ok, OnOk, Some, length};
ghost use Rattle.mapi_values.specs.Properties.{put, remove_id};
ghost use Rattle.mail_tree.specs.Changing.{with_object};
ghost use Rattle.mail_tree.specs.Values.{bytes_of, finished, key_front, message_props, search_key, with_attachment_flag, with_flag, with_props};
ghost use Rattle.mail_tree.specs.Messages.{copy_of, plain_message};
ghost use Rattle.mail_draft.specs.Sight.{Changes, Drafts};
ghost use Rattle.mail_objects.specs.declared.object.Object.TheVariants as objects;

use crate::giving::put_values;
use mail_draft::{Desk, Stop, bytes_of, number_of, put_number, put_text, put_time};
use mail_objects::{Mail, Object};
use mapi_values::tags::{
    ID_MESSAGE_FLAGS, ID_MESSAGE_SIZE, PID_TAG_CREATION_TIME, PID_TAG_LAST_MODIFICATION_TIME,
    PID_TAG_MESSAGE_CLASS, PID_TAG_RECORD_KEY, PID_TAG_SEARCH_KEY, PTYP_BINARY, PTYP_INTEGER_32,
};
use mapi_values::{Message, Props, Tag, Units, Value, size};
use pst_base::{Bytes, Nid, Subs};
use std::alloc::{AllocError, Global};

/// The same message with another id, in another folder.
#[tactic(auto, unfolding(mail_objects::specs::Message::is_formed))]
pub(crate) fn copy_of(nid: Nid, folder: Nid, original: Mail) -> Mail
    ensures { result ≡ copy_of nid.bits folder.bits original }
{
    let original = original.into_message();
    Mail::new(Message {
        nid,
        folder,
        props: original.props,
        recipients: original.recipients,
        attachments: original.attachments,
        parts: original.parts,
        kept: original.kept,
    })
}

/// A message without recipients, attachments and other subnodes.
#[tactic(auto, unfolding(mail_objects::specs::Message::is_formed))]
pub(crate) fn plain_message(alloc: Global, nid: Nid, folder: Nid, props: Props) -> Mail
    ensures { result ≡ plain_message nid.bits folder.bits props }
{
    Mail::new(Message {
        nid,
        folder,
        props,
        recipients: None,
        attachments: None,
        parts: Vec::new(alloc),
        kept: Subs::new(alloc),
    })
}

/// The flags with bit 10h as it is to be.
fn with_flag(on: bool, flags: u32) -> u32
    ensures { result ≡ with_flag on flags }
{
    let cleared = flags - 16 * (flags / 16 % 2);
    if on { cleared + 16 } else { cleared }
}

/// Makes bit 10h of the flags right. Flags that aren't there come only with an attachment.
#[tactic(auto, unfolding(mail_tree::specs::Values::with_attachment_flag))]
fn put_attachment_flag(alloc: Global, props: &mut Props, on: bool) -> Result<(), AllocError>
    ensures { OnOk result (props.new ≡ with_attachment_flag on props.old) }
{
    if bytes_of(props, ID_MESSAGE_FLAGS, PTYP_INTEGER_32).is_some() {
        let flags = with_flag(on, number_of(props, ID_MESSAGE_FLAGS));
        return put_number(alloc, props, ID_MESSAGE_FLAGS, u64::from(flags));
    }
    if on {
        put_number(alloc, props, ID_MESSAGE_FLAGS, 16)
    } else {
        Ok(())
    }
}

/// Makes the flags of a message right, and then its size.
#[tactic(auto, unfolding(mail_tree::specs::Values::finished))]
fn finish(alloc: Global, message: &mut Message) -> Result<(), AllocError>
    ensures { OnOk result (message.new ≡ finished message.old) }
{
    let on = message.parts.len() > 0;
    put_attachment_flag(alloc, &mut message.props, on)?;
    let size = u64::from(size(message));
    put_number(alloc, &mut message.props, ID_MESSAGE_SIZE, size)
}

/// The message with its flags and its size right. It is lost with an `Err`.
#[tactic(auto, unfolding(mail_tree::specs::Values::finished, mail_objects::specs::Message::is_formed))]
pub fn finished(alloc: Global, mail: Mail) -> Result<Mail, AllocError>
    ensures { IfOk result (λ m. m ≡ finished mail) }
{
    let mut message = mail.into_message();
    finish(alloc, &mut message)?;
    Ok(Mail::new(message))
}

/// Puts a copy of a value, in place of the one of its id.
fn put_copy(alloc: Global, props: &mut Props, value: &Value) -> Result<(), AllocError>
    ensures { OnOk result (props.new ≡ put value.now props.old) }
{
    props.put(value.copy(alloc)?)
}

/// The same message with a value in place of the one of its id. It is lost with an `Err`.
#[tactic(auto, unfolding(mail_objects::specs::Message::is_formed))]
pub fn with_value(alloc: Global, mail: Mail, value: &Value) -> Result<Mail, AllocError>
    ensures { IfOk result (λ m. m ≡ with_props (put value.now mail.props) mail) }
{
    let mut message = mail.into_message();
    put_copy(alloc, &mut message.props, value)?;
    Ok(Mail::new(message))
}

/// The same message without the value of this id.
#[tactic(auto, unfolding(mail_objects::specs::Message::is_formed))]
pub fn without_value(mail: Mail, id: u16) -> Mail
    ensures { result ≡ with_props (remove_id id mail.props) mail }
{
    let mut message = mail.into_message();
    let _was_there = message.props.remove(id);
    Mail::new(message)
}

/// Pushes the first 12 bytes of the store's record key, or zeros where it is shorter or isn't there.
fn push_key(bytes: &mut Vec<u8>, store: &Props) -> Result<(), AllocError>
    ensures front { OnOk result (bytes.new.items ≡ bytes.old.items ++ key_front (bytes_of 0x0FF9 0x0102 store.now)) }
    ensures len { OnOk result (length bytes.new.items ≡ length bytes.old.items + 12) }
{
    let zeros = [0; 12];
    match bytes_of(store, PID_TAG_RECORD_KEY.id, PTYP_BINARY) {
        Some(key) => {
            if key.len() >= 12 {
                bytes.extend_from_slice(&key[..12])
            } else {
                bytes.extend_from_slice(&zeros)
            }
        }
        None => bytes.extend_from_slice(&zeros),
    }
}

/// The search key of a new message: its id and the front of the store's record key.
fn search_key(alloc: Global, message: Nid, store: &Props) -> Result<Bytes, AllocError>
    ensures key { IfOk result (λ key. key ≡ search_key message.bits store.now) }
    ensures len { IfOk result (λ key. length key ≡ 16) }
{
    let mut bytes = Vec::from_slice(alloc, &message.bits.to_le_bytes())?;
    push_key(&mut bytes, store)?;
    Ok(Bytes::from_vec(bytes))
}

/// The values of a new message that is given these, but for its size.
#[tactic(auto, unfolding(mapi_values::specs::Values::fits, mapi_values::specs::Values::in_field))]
pub(crate) fn message_props(
    alloc: Global,
    message: Nid,
    class: &Units,
    time: u64,
    store: &Props,
    values: &Props,
) -> Result<Props, AllocError>
    ensures { IfOk result (λ p. p ≡ message_props message.bits class.now time store.now values.now) }
{
    let mut props = Props::new(alloc);
    put_text(alloc, &mut props, PID_TAG_MESSAGE_CLASS.id, class)?;
    put_number(alloc, &mut props, ID_MESSAGE_FLAGS, 0)?;
    put_time(alloc, &mut props, PID_TAG_CREATION_TIME.id, time)?;
    put_time(alloc, &mut props, PID_TAG_LAST_MODIFICATION_TIME.id, time)?;
    let tag = Tag {
        id: PID_TAG_SEARCH_KEY.id,
        kind: PTYP_BINARY,
    };
    props.put(Value::new(tag, search_key(alloc, message, store)?))?;
    put_values(alloc, &mut props, values.values())?;
    Ok(props)
}

/// Puts a message at its own id, and gives a copy of its values, which its row is to show.
pub(crate) fn put_message<D: Desk>(desk: &mut D, mail: Mail) -> Result<Props, Stop>
    ensures drafts { Drafts (D.view desk.old) (D.view desk.new) result }
    ensures put { Changes (D.view desk.old) (D.view desk.new) (λ T c. Ok (with_object mail.nid (Some (objects.Message mail)) c)) result }
    ensures props { IfOk result (λ props. props ≡ mail.props) }
{
    let nid = mail.message().nid;
    let props = mail.message().props.copy(desk.alloc())?;
    desk.put(nid, Some(Object::Message(mail)))?;
    Ok(props)
}
