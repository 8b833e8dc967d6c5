//! `set` and `unset`
ghost use Rattle.std.specs.Prelude.{◌≡◌, IfErr};
ghost use Rattle.mail_tree.specs.Changing.{nothing};
ghost use Rattle.mail_tree.specs.Messages.{set_value, unset_value};
ghost use Rattle.mail_tree.specs.Values.{is_own_id, is_set_protected, is_unset_protected};
ghost use Rattle.mail_draft.specs.Answers.{IsCalm, Says};
ghost use Rattle.mail_draft.specs.Desks.{Comes};
ghost use Rattle.mail_draft.specs.Sight.{Answers, Drafts, Reads};
ghost use Rattle.mail_messages.specs.Parts.{may_put, may_set, may_unset, putting_value, removing_value};

use crate::changes::change_message;
use crate::find::message_in;
use crate::mails::{with_value, without_value};
use command_text::CommandRefusal;
use mail_draft::{Coming, Desk, Stop, bytes_of};
use mail_names::on_desk::check_named;
use mail_objects::Mail;
use mapi_values::tags::{
    ID_LTP_ROW_ID, ID_LTP_ROW_VER, ID_MESSAGE_ATTACHMENTS, ID_MESSAGE_FLAGS, ID_MESSAGE_RECIPIENTS,
    ID_MESSAGE_SIZE, ID_SEARCH_KEY, PTYP_OBJECT,
};
use mapi_values::{Props, Tag, Value};
use pst_base::Nid;

/// Whether the store keeps the values of this id itself.
pub(crate) fn is_own_id(id: u16) -> bool
    ensures { result ≡ is_own_id id }
{
    matches!(
        id,
        ID_MESSAGE_SIZE
            | ID_MESSAGE_RECIPIENTS
            | ID_MESSAGE_ATTACHMENTS
            | ID_SEARCH_KEY
            | ID_LTP_ROW_ID
            | ID_LTP_ROW_VER
    )
}

/// Whether a value of this id may not be set.
fn is_set_protected(id: u16, props: &Props) -> bool
    ensures { result ≡ is_set_protected id props.now }
{
    is_own_id(id) || bytes_of(props, id, PTYP_OBJECT).is_some()
}

/// Whether the value of this tag may not be removed.
fn is_unset_protected(tag: Tag, props: &Props) -> bool
    ensures { result ≡ is_unset_protected tag.id tag.kind props.now }
{
    is_own_id(tag.id)
        || tag.id == ID_MESSAGE_FLAGS
        || (tag.kind == PTYP_OBJECT && bytes_of(props, tag.id, PTYP_OBJECT).is_some())
}

/// Checks that a value of this id isn't the store's own.
pub fn check_set(id: u16, mail: &Mail) -> Result<(), Stop>
    ensures answer { Says (λ u. u) (may_set id mail.now.props) result }
    ensures cause { IfErr result IsCalm }
{
    if is_set_protected(id, &mail.message().props) {
        return Err(Stop::Refused(CommandRefusal::Protected));
    }
    Ok(())
}

/// Checks that the value of this tag may be removed.
pub fn check_unset(tag: Tag, mail: &Mail) -> Result<(), Stop>
    ensures answer { Says (λ u. u) (may_unset tag mail.now.props) result }
    ensures cause { IfErr result IsCalm }
{
    let props = &mail.message().props;
    if is_unset_protected(tag, props) {
        return Err(Stop::Refused(CommandRefusal::Protected));
    }
    if bytes_of(props, tag.id, tag.kind).is_none() {
        return Err(Stop::Refused(CommandRefusal::Property));
    }
    Ok(())
}

/// Checks that a value of this id may be put into a message: it isn't the store's own, and where it needs a name it has one.
fn check_put<D: Desk>(desk: &mut D, mail: &Mail, id: u16) -> Result<(), Stop>
    ensures reads { Reads (D.view desk.old) (D.view desk.new) result }
    ensures answer { Answers (D.view desk.old) (λ u. u) (λ T c. may_put T id mail.now.props) result }
{
    check_set(id, mail)?;
    check_named(desk, id)
}

/// Puts a value into this message.
fn put_value<D: Desk>(desk: &mut D, mail: Mail, value: &Value) -> Result<Coming, Stop>
    requires fresh { (D.view desk.old).changed ≡ nothing }
    ensures drafts { Drafts (D.view desk.old) (D.view desk.new) result }
    ensures answer { Comes (D.view desk.old) (D.view desk.new) (λ T c. putting_value T value.now mail) result }
{
    check_put(desk, &mail, value.id())?;
    let changed = with_value(desk.alloc(), mail, value)?;
    change_message(desk, changed)
}

/// Removes a value from this message.
fn remove_value<D: Desk>(desk: &mut D, mail: Mail, tag: Tag) -> Result<Coming, Stop>
    requires fresh { (D.view desk.old).changed ≡ nothing }
    ensures drafts { Drafts (D.view desk.old) (D.view desk.new) result }
    ensures answer { Comes (D.view desk.old) (D.view desk.new) (λ T c. removing_value T tag mail) result }
{
    check_unset(tag, &mail)?;
    let changed = without_value(mail, tag.id);
    change_message(desk, changed)
}

/// Puts a value into a message. Refused where the message isn't there, the id is the store's own or that of an object (`Protected`), or it is 8000h or more and no name has it (`Property`).
pub fn set_value<D: Desk>(desk: &mut D, message: Nid, value: &Value) -> Result<Coming, Stop>
    requires fresh { (D.view desk.old).changed ≡ nothing }
    ensures drafts { Drafts (D.view desk.old) (D.view desk.new) result }
    ensures answer { Comes (D.view desk.old) (D.view desk.new) (λ T c. set_value T message.bits value.now) result }
{
    let mail = message_in(desk, message)?;
    put_value(desk, mail, value)
}

/// Removes a value of this id and kind from a message. Refused where the message isn't there, the value is the store's own or an object (`Protected`), or there is none (`Property`).
pub fn unset_value<D: Desk>(desk: &mut D, message: Nid, tag: Tag) -> Result<Coming, Stop>
    requires fresh { (D.view desk.old).changed ≡ nothing }
    ensures drafts { Drafts (D.view desk.old) (D.view desk.new) result }
    ensures answer { Comes (D.view desk.old) (D.view desk.new) (λ T c. unset_value T message.bits tag) result }
{
    let mail = message_in(desk, message)?;
    remove_value(desk, mail, tag)
}
