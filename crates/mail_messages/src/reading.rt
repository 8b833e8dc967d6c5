//! `get` and `props`
ghost use Rattle.std.specs.Prelude.{◌≡◌, IfErr, IfOk, List, Some, option_copied};
ghost use Rattle.mapi_values.specs.Properties.{find};
ghost use Rattle.mapi_values.specs.Values.{Val};
ghost use Rattle.mail_tree.specs.Changing.{nothing};
ghost use Rattle.mail_tree.specs.Folders.{listed};
ghost use Rattle.mail_tree.specs.Messages.{details, value_in, value_of};
ghost use Rattle.mail_tree.specs.Tree.{Tree};
ghost use Rattle.mail_draft.specs.Outcomes.{outcome_of};
ghost use Rattle.mail_draft.specs.Answers.{IsCalm, Says};
ghost use Rattle.mail_draft.specs.content_glance.Glances.{IsTold};
ghost use Rattle.mail_draft.specs.Desks.{Comes};
ghost use Rattle.mail_draft.specs.Glancing.{IsContent};
ghost use Rattle.mail_draft.specs.Sight.{Answers, Reads};
ghost use Rattle.mail_messages.specs.Parts.{detail_lines, telling_value, value_reply};
ghost use Rattle.mail_messages.specs.Reading.{TellsReply, value_at};

use crate::details::{detail_lines, listed};
use crate::find::{check_there, message_in};
use command_text::{CommandRefusal, LastLine, Reply};
use mail_draft::content_glance::Glance;
use mail_draft::{Coming, Desk, Outcome, Stop, glance_of};
use mail_objects::Mail;
use mapi_values::{Props, Tag, Value};
use node_port::NodeRec;
use pst_base::Nid;
use std::alloc::{AllocError, Global};

/// The value of this id, if it is of this kind.
fn find_value(props: &Props, tag: Tag) -> Option<&Value>
    ensures { option_copied result ≡ value_of tag props.now }
{
    let value = props.get(tag.id)?;
    if value.kind() == tag.kind {
        Some(value)
    } else {
        None
    }
}

/// The value of this id and kind as a reply. Refused where there is none.
fn value_reply(alloc: Global, props: &Props, tag: Tag) -> Result<Reply, Stop>
    ensures answer { Says (λ r. r) (value_reply tag props.now) result }
    ensures cause { IfErr result IsCalm }
{
    match find_value(props, tag) {
        Some(value) => {
            let told = LastLine::Value(value.copy(alloc)?);
            Ok(Reply::without_data(alloc, told))
        }
        None => Err(Stop::Refused(CommandRefusal::Property)),
    }
}

/// The value of this id and kind as the reply. Refused where there is none.
pub fn tell_value(alloc: Global, props: &Props, tag: Tag) -> Result<Outcome, Stop>
    ensures answer { (T : Tree) → Says (outcome_of T) (telling_value T tag props.now) result }
    ensures cause { IfErr result IsCalm }
{
    let reply = value_reply(alloc, props, tag)?;
    Ok(Outcome::unchanged(alloc, reply))
}

/// The value of a message of this id and kind as a reply. Refused where there is none.
pub fn reply_of(alloc: Global, mail: &Mail, tag: Tag) -> Result<Reply, Stop>
    ensures answer { Says (λ r. r) (value_reply tag mail.now.props) result }
    ensures cause { IfErr result IsCalm }
{
    value_reply(alloc, &mail.message().props, tag)
}

/// The value of the message at an id of this id and kind as a reply, of the whole message.
fn whole_reply<D: Desk>(desk: &mut D, message: Nid, tag: Tag) -> Result<Reply, Stop>
    ensures reads { Reads (D.view desk.old) (D.view desk.new) result }
    ensures answer { Answers (D.view desk.old) (λ r. r) (λ T c. value_at T message.bits tag) result }
{
    let mail = desk.message_before(message)?;
    reply_of(desk.alloc(), &mail, tag)
}

/// The value that a node holds as a reply. Refused where it is of another kind.
fn held_reply(alloc: Global, value: Value, tag: Tag) -> Result<Reply, Stop>
    ensures answer { (props : List Val) → find tag.id props ≡ Some value → Says (λ r. r) (value_reply tag props) result }
    ensures cause { IfErr result IsCalm }
{
    if value.kind() == tag.kind {
        Ok(Reply::without_data(alloc, LastLine::Value(value)))
    } else {
        Err(Stop::Refused(CommandRefusal::Property))
    }
}

/// The value of this id and kind of a message whose node tells this of the value with the id, as a reply. The whole message is read only where the value stands in a subnode.
fn told_reply<D: Desk>(desk: &mut D, message: Nid, tag: Tag, told: Glance) -> Result<Reply, Stop>
    ensures reads { Reads (D.view desk.old) (D.view desk.new) result }
    ensures answer { TellsReply (D.view desk.old) message.bits tag (λ M. IsTold tag.id M.props (Some told)) result }
{
    match told {
        Glance::Held(value) => held_reply(desk.alloc(), value, tag),
        Glance::Absent => Err(Stop::Refused(CommandRefusal::Property)),
        Glance::Below => whole_reply(desk, message, tag),
    }
}

/// The value of this id and kind of a message whose node this is, as a reply.
fn reply_in<D: Desk>(desk: &mut D, message: Nid, tag: Tag, node: &NodeRec) -> Result<Reply, Stop>
    ensures reads { Reads (D.view desk.old) (D.view desk.new) result }
    ensures answer { TellsReply (D.view desk.old) message.bits tag (IsContent node.now) result }
{
    let told = glance_of(desk.alloc(), node, tag.id)?;
    told_reply(desk, message, tag, told)
}

/// The value of this id and kind of the message at an id, as a reply.
fn value_at<D: Desk>(desk: &mut D, message: Nid, tag: Tag) -> Result<Reply, Stop>
    ensures reads { Reads (D.view desk.old) (D.view desk.new) result }
    ensures answer { Answers (D.view desk.old) (λ r. r) (λ T c. value_at T message.bits tag) result }
{
    let node = desk.content_before(message)?;
    reply_in(desk, message, tag, &node)
}

/// The value of this id and kind. Refused where the message isn't there, or has none. Recipients, attachments and other values are read only where the value stands in a subnode.
pub fn get_value<D: Desk>(desk: &mut D, message: Nid, tag: Tag) -> Result<Coming, Stop>
    requires fresh { (D.view desk.old).changed ≡ nothing }
    ensures reads { Reads (D.view desk.old) (D.view desk.new) result }
    ensures answer { Comes (D.view desk.old) (D.view desk.new) (λ T c. value_in T message.bits tag) result }
{
    check_there(desk, message)?;
    let reply = value_at(desk, message, tag)?;
    Ok(Coming::replied(reply))
}

/// The lines that tell of a message as a reply.
pub fn details_reply(alloc: Global, mail: &Mail) -> Result<Reply, AllocError>
    ensures { IfOk result (λ reply. reply ≡ listed (detail_lines mail.now)) }
{
    let lines = detail_lines(alloc, mail)?;
    Ok(listed(lines))
}

/// Lists the properties, recipients and attachments of a message. Refused where it isn't there.
pub fn list_details<D: Desk>(desk: &mut D, message: Nid) -> Result<Coming, Stop>
    requires fresh { (D.view desk.old).changed ≡ nothing }
    ensures reads { Reads (D.view desk.old) (D.view desk.new) result }
    ensures answer { Comes (D.view desk.old) (D.view desk.new) (λ T c. details T message.bits) result }
{
    let mail = message_in(desk, message)?;
    let reply = details_reply(desk.alloc(), &mail)?;
    Ok(Coming::replied(reply))
}
