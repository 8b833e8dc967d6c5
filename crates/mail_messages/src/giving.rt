//! The values that a new message is given.
ghost use Rattle.std.specs.Prelude.{◌≡◌, IfErr, OnOk};
ghost use Rattle.mail_tree.specs.Values.{is_new_id, is_withheld, put_all};
ghost use Rattle.mail_draft.specs.Answers.{IsCalm, Says};
ghost use Rattle.mail_messages.specs.Parts.{may_give};

use crate::values::is_own_id;
use command_text::CommandRefusal;
use mail_draft::Stop;
use mapi_values::tags::{
    ID_MESSAGE_FLAGS, PID_TAG_CREATION_TIME, PID_TAG_LAST_MODIFICATION_TIME, PID_TAG_MESSAGE_CLASS,
    PTYP_OBJECT,
};
use mapi_values::{Props, Value};
use std::alloc::{AllocError, Global};

/// Whether a new message has the value of this id of its own: its class, its flags or a time.
fn is_new_id(id: u16) -> bool
    ensures { result ≡ is_new_id id }
{
    id == PID_TAG_MESSAGE_CLASS.id
        || id == ID_MESSAGE_FLAGS
        || id == PID_TAG_CREATION_TIME.id
        || id == PID_TAG_LAST_MODIFICATION_TIME.id
}

/// Whether a new message may not be given this value: it has one of its own, the store keeps it itself, its id needs a name, or it is an object.
fn is_withheld(value: &Value) -> bool
    ensures { result ≡ is_withheld value.now }
{
    let id = value.id();
    is_new_id(id) || is_own_id(id) || id >= 0x8000 || value.kind() == PTYP_OBJECT
}

/// Checks that a new message may be given these values. Refused as `Protected` otherwise.
pub(crate) fn check_given(values: &Props) -> Result<(), Stop>
    ensures answer { Says (λ u. u) (may_give values.now) result }
    ensures cause { IfErr result IsCalm }
{
    if values.values().iter().any(|value| is_withheld(value)) {
        return Err(Stop::Refused(CommandRefusal::Protected));
    }
    Ok(())
}

/// Puts a copy of each of these values, in place of the one of its id.
pub(crate) fn put_values(
    alloc: Global,
    props: &mut Props,
    values: &[Value],
) -> Result<(), AllocError>
    ensures { OnOk result (props.new ≡ put_all values.now props.old) }
{
    for value in values {
        props.put(value.copy(alloc)?)?;
    }
    Ok(())
}
