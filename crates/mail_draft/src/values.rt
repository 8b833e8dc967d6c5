//! Values of objects that the store reads and makes.
ghost use Rattle.std.specs.Prelude.{◌≡◌, false, IfOk, IfSome, IsTrue, OnErr, OnOk, length, option_copied};
ghost use Rattle.mapi_values.specs.Characters.{folded};
ghost use Rattle.mapi_values.specs.Properties.{put};
ghost use Rattle.mapi_values.specs.Values.{fits};
ghost use Rattle.mail_tree.specs.Values.{bytes_of, is_read, name_of, number, number_of, text, text_of, time_value, truth, with_counts};

use mapi_values::tags::{
    PID_TAG_CONTENT_COUNT, PID_TAG_CONTENT_UNREAD_COUNT, PID_TAG_DISPLAY_NAME,
    PID_TAG_MESSAGE_FLAGS, PID_TAG_SUBFOLDERS, PTYP_BOOLEAN, PTYP_INTEGER_32, PTYP_STRING,
    PTYP_TIME,
};
use mapi_values::{Props, Tag, Units, Value, fits};
use pst_base::{Bytes, u32_at};
use std::alloc::{AllocError, Global};
use value_text::{bytes_of_units, units_of_bytes};

/// The bytes of the value of this id, if it is of this kind.
pub fn bytes_of(props: &Props, id: u16, kind: u16) -> Option<&[u8]>
    ensures bytes { option_copied result ≡ bytes_of id kind props.now }
    ensures fit { IfSome result (λ bytes. IsTrue (fits kind (length bytes.now))) }
{
    let value = props.get(id)?;
    if value.kind() == kind {
        Some(value.bytes())
    } else {
        None
    }
}

/// The text of this id, empty where there is none.
pub fn text_of(alloc: Global, props: &Props, id: u16) -> Result<Units, AllocError>
    ensures { IfOk result (λ units. units ≡ text_of id props.now) }
{
    match bytes_of(props, id, PTYP_STRING) {
        Some(bytes) => units_of_bytes(alloc, bytes),
        None => Ok(Units::from_vec(Vec::new(alloc))),
    }
}

/// A folder's name.
pub fn name_of(alloc: Global, props: &Props) -> Result<Units, AllocError>
    ensures { IfOk result (λ units. units ≡ name_of props.now) }
{
    text_of(alloc, props, PID_TAG_DISPLAY_NAME.id)
}

/// A folder's name, its case folded.
pub fn folded_name(alloc: Global, props: &Props) -> Result<Units, AllocError>
    ensures { IfOk result (λ units. units ≡ folded false (name_of props.now)) }
{
    let name = name_of(alloc, props)?;
    name.fold(alloc, false)
}

/// The number of this id, 0 where there is none.
pub fn number_of(props: &Props, id: u16) -> u32
    ensures { result ≡ number_of id props.now }
{
    match bytes_of(props, id, PTYP_INTEGER_32) {
        Some(bytes) => u32_at(bytes, 0),
        None => 0,
    }
}

/// Whether a message with these values was read.
pub fn is_read(props: &Props) -> bool
    ensures { result ≡ is_read props.now }
{
    number_of(props, PID_TAG_MESSAGE_FLAGS.id) % 2 == 1
}

/// Puts a text, in place of the value of its id. An `Err` changes nothing: memory ran out, or the text has 2^31 units or more.
pub fn put_text(alloc: Global, props: &mut Props, id: u16, units: &Units) -> Result<(), AllocError>
    ensures ok { OnOk result (props.new ≡ put (text id units.now) props.old) }
    ensures err { OnErr result (props.new ≡ props.old) }
{
    let bytes = bytes_of_units(alloc, units)?;
    if !fits(PTYP_STRING, bytes.len()) {
        return Err(AllocError);
    }
    props.put(Value::new(
        Tag {
            id,
            kind: PTYP_STRING,
        },
        bytes,
    ))
}

/// Puts a number of 4 bytes, in place of the value of its id; a greater one loses its higher bytes. An `Err` changes nothing.
pub fn put_number(alloc: Global, props: &mut Props, id: u16, count: u64) -> Result<(), AllocError>
    ensures ok { OnOk result (props.new ≡ put (number id count) props.old) }
    ensures err { OnErr result (props.new ≡ props.old) }
{
    let bytes = Bytes::from_slice(alloc, &count.to_le_bytes()[..4])?;
    props.put(Value::new(
        Tag {
            id,
            kind: PTYP_INTEGER_32,
        },
        bytes,
    ))
}

/// Puts a time, in place of the value of its id. An `Err` changes nothing.
pub fn put_time(alloc: Global, props: &mut Props, id: u16, time: u64) -> Result<(), AllocError>
    ensures ok { OnOk result (props.new ≡ put (time_value id time) props.old) }
    ensures err { OnErr result (props.new ≡ props.old) }
{
    let bytes = Bytes::from_slice(alloc, &time.to_le_bytes())?;
    props.put(Value::new(
        Tag {
            id,
            kind: PTYP_TIME,
        },
        bytes,
    ))
}

/// Puts a truth value, in place of the value of its id. An `Err` changes nothing.
pub fn put_truth(alloc: Global, props: &mut Props, id: u16, is_so: bool) -> Result<(), AllocError>
    ensures ok { OnOk result (props.new ≡ put (truth id is_so) props.old) }
    ensures err { OnErr result (props.new ≡ props.old) }
{
    let bytes = Bytes::from_slice(alloc, &[u8::from(is_so)])?;
    props.put(Value::new(
        Tag {
            id,
            kind: PTYP_BOOLEAN,
        },
        bytes,
    ))
}

/// A folder's values with other counts: its messages, those that are unread, and whether it has folders. The values are lost with an `Err`.
pub fn with_counts(
    alloc: Global,
    props: Props,
    messages: u64,
    unread: u64,
    has_folders: bool,
) -> Result<Props, AllocError>
    ensures { IfOk result (λ counted. counted ≡ with_counts messages unread has_folders props) }
{
    let mut counted = props;
    put_number(alloc, &mut counted, PID_TAG_CONTENT_COUNT.id, messages)?;
    put_number(alloc, &mut counted, PID_TAG_CONTENT_UNREAD_COUNT.id, unread)?;
    put_truth(alloc, &mut counted, PID_TAG_SUBFOLDERS.id, has_folders)?;
    Ok(counted)
}
