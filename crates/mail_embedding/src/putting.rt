//! `eset` and `eunset`: an embedded message that gets or loses a value.
ghost use Rattle.std.specs.Prelude.{◌≡◌, IfErr, IfOk, OnOk, true};
ghost use Rattle.mapi_values.specs.Messages.{Mes};
ghost use Rattle.mapi_values.specs.declared.part.Part.{Part as APart};
ghost use Rattle.write_limits.specs.Limits.{message_fits};
ghost use Rattle.embedded_obj.specs.Embedding.{ShowsInner, becoming, set_inside, unset_inside};
ghost use Rattle.mail_parts.specs.mail_draft.Answers.{IsCalm, Says};
ghost use Rattle.mail_parts.specs.mail_draft.Sight.{Answers, Reads};
ghost use Rattle.mapi_values.specs.Properties.{put, remove_id};
ghost use Rattle.mail_tree.specs.Values.{with_props};
ghost use Rattle.mail_parts.specs.mail_messages.Parts.{may_put};
ghost use Rattle.mail_embedding.specs.Meant.{IsPut};

use command_text::{Command, CommandRefusal, Limit};
use embedded_obj::lay;
use mail_objects::Mail;
use mail_parts::mail_draft::{Desk, Stop, crowds_message};
use mail_parts::mail_messages::{check_set, check_unset, finished, with_value, without_value};
use mail_parts::mail_names::on_desk::check_named;
use mapi_values::{Part, Tag, Value};
use pst_base::Nid;
use std::alloc::{AllocError, Global};
use write_limits::message_fits;

/// An embedded message that became another, with its flags and its size right. Refused where it couldn't be written (`Limit(Rows)`), or has too many values (`Limit(Properties)`).
#[tactic(auto, unfolding(embedded_obj::specs::Embedding::becoming))]
fn becoming(alloc: Global, old: &Mail, new: Mail) -> Result<Mail, Stop>
    ensures answer { Says (λ m. m) (becoming old.now new) result }
    ensures fits { IfOk result (λ m. message_fits m ≡ true) }
    ensures place { IfOk result (λ m. (m.nid ≡ new.nid) × (m.folder ≡ new.folder)) }
    ensures cause { IfErr result IsCalm }
{
    let new = finished(alloc, new)?;
    if !message_fits(new.message()) {
        return Err(Stop::Refused(CommandRefusal::Limit(Limit::Rows)));
    }
    if crowds_message(old, &new) {
        return Err(Stop::Refused(CommandRefusal::Limit(Limit::Properties)));
    }
    Ok(new)
}

/// Checks that a value of this id may be put into an embedded message: it isn't the store's own, and where it needs a name it has one.
fn check_put<D: Desk>(desk: &mut D, mail: &Mail, id: u16) -> Result<(), Stop>
    ensures reads { Reads (D.view desk.old) (D.view desk.new) result }
    ensures answer { Answers (D.view desk.old) (λ u. u) (λ T c. may_put T id mail.now.props) result }
{
    check_set(id, mail)?;
    check_named(desk, id)
}

/// An embedded message with this value.
fn put_inside(alloc: Global, mail: &Mail, value: &Value) -> Result<Mail, Stop>
    ensures answer { Says (λ m. m) (becoming mail.now (with_props (put value.now mail.now.props) mail.now)) result }
    ensures fits { IfOk result (λ m. message_fits m ≡ true) }
    ensures place { IfOk result (λ m. (m.nid ≡ mail.now.nid) × (m.folder ≡ mail.now.folder)) }
    ensures cause { IfErr result IsCalm }
{
    let changed = with_value(alloc, mail.copy(alloc)?, value)?;
    becoming(alloc, mail, changed)
}

/// An embedded message that gets a value. Refused, in this order: the id is the store's own or that of an object (`Protected`), it is 8000h or more and no name has it (`Property`), or as `becoming` is.
#[tactic(auto, unfolding(embedded_obj::specs::Embedding::set_inside))]
pub(crate) fn set_inside<D: Desk>(desk: &mut D, mail: Mail, value: &Value) -> Result<Mail, Stop>
    ensures reads { Reads (D.view desk.old) (D.view desk.new) result }
    ensures answer { Answers (D.view desk.old) (λ m. m) (λ T c. set_inside T value.now mail) result }
    ensures fits { IfOk result (λ m. message_fits m ≡ true) }
    ensures place { IfOk result (λ m. (m.nid ≡ mail.nid) × (m.folder ≡ mail.folder)) }
{
    check_put(desk, &mail, value.id())?;
    put_inside(desk.alloc(), &mail, value)
}

/// An embedded message without the value of this id.
fn take_inside(alloc: Global, mail: &Mail, id: u16) -> Result<Mail, Stop>
    ensures answer { Says (λ m. m) (becoming mail.now (with_props (remove_id id mail.now.props) mail.now)) result }
    ensures fits { IfOk result (λ m. message_fits m ≡ true) }
    ensures place { IfOk result (λ m. (m.nid ≡ mail.now.nid) × (m.folder ≡ mail.now.folder)) }
    ensures cause { IfErr result IsCalm }
{
    let changed = without_value(mail.copy(alloc)?, id);
    becoming(alloc, mail, changed)
}

/// An embedded message that loses a value. Refused, in this order: the value is the store's own or an object (`Protected`), there is none (`Property`), or as `becoming` is.
#[tactic(auto, unfolding(embedded_obj::specs::Embedding::unset_inside))]
pub(crate) fn unset_inside(alloc: Global, mail: Mail, tag: Tag) -> Result<Mail, Stop>
    ensures answer { Says (λ m. m) (unset_inside tag mail) result }
    ensures fits { IfOk result (λ m. message_fits m ≡ true) }
    ensures place { IfOk result (λ m. (m.nid ≡ mail.nid) × (m.folder ≡ mail.folder)) }
    ensures cause { IfErr result IsCalm }
{
    check_unset(tag, &mail)?;
    take_inside(alloc, &mail, tag.id)
}

/// The command that puts a message, which is lost, into an attachment in place of the one that it holds.
pub(crate) fn replaced(
    alloc: Global,
    message: Nid,
    attachment: Nid,
    mail: Mail,
) -> Result<Command, AllocError>
    requires { message_fits mail ≡ true }
    ensures { IfOk result (λ c. (part : APart) (old : Mes) → ShowsInner part old → mail.nid ≡ old.nid → mail.folder ≡ old.folder → IsPut message attachment part mail c) }
{
    let nid = mail.message().nid;
    let node = lay(alloc, mail, nid)?;
    Ok(Command::SetEmbedded {
        message,
        attachment,
        node,
    })
}
