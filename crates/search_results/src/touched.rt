//! The messages that a command touches.
ghost use Rattle.std.specs.Prelude.{◌≡◌, IfErr, IfOk, option_copied};
ghost use Rattle.mail_tree.specs.Changing.{as_message, now_at};
ghost use Rattle.mail_tree.specs.Tree.{object_at};
ghost use Rattle.mail_draft.specs.Answers.{IsCalm};
ghost use Rattle.mail_draft.specs.Sight.{IsAbout, Reads};
ghost use Rattle.search_results.specs.Touched.{TouchedBy, Touches, touch_after};
ghost use Rattle.search_results.specs.declared.forms.TouchForm.TheVariants as forms;

use crate::desk::SearchDesk;
use crate::forms::{TouchForm, form_of};
use crate::moving::carried_along;
use command_text::{Command, LastLine};
use mail_draft::{Coming, Desk, Stop, as_message};
use mail_objects::Mail;
use mapi_values::Message;
use pst_base::Nid;
use std::alloc::{AllocError, Global};
use std::marker::Model;

/// A message that a command touches: its id, what it was and what it is, if it was there and is there, and whether the command put it anew. Contracts see a `Touch`.
#[derive(Debug, Drop)]
pub(crate) struct TouchedMessage {
    pub(crate) nid: Nid,
    pub(crate) old: Option<Mail>,
    pub(crate) new: Option<Mail>,
    pub(crate) anew: bool,
}

impl Model for TouchedMessage {
    ghost use Rattle.mail_searches.specs.Relisting.{Touch};

    ghost Value = { Touch };

    ghost view = { λ t. record { nid = t.nid.bits; old = t.old; new = t.new; anew = t.anew } };
}

/// The message, if there is one.
pub(crate) fn message_of(mail: &Option<Mail>) -> Option<&Message>
    ensures { option_copied result ≡ mail.now }
{
    match mail {
        Some(mail) => Some(mail.message()),
        None => None,
    }
}

/// A copy of the message, if there is one.
fn copied(alloc: Global, mail: Option<&Mail>) -> Result<Option<Mail>, AllocError>
    ensures { IfOk result (λ m. m ≡ option_copied mail.entry) }
{
    match mail {
        Some(mail) => Ok(Some(mail.copy(alloc)?)),
        None => Ok(None),
    }
}

/// What a message is after a command, where it was this before, if it was there.
fn new_message<D: SearchDesk>(
    desk: &D,
    nid: Nid,
    old: &Option<Mail>,
) -> Result<Option<Mail>, AllocError>
    ensures { IfOk result (λ new. IsAbout (D.view desk.now) (λ T. as_message (object_at T nid.bits) ≡ old.now → new ≡ as_message (now_at T (D.view desk.now).changed nid.bits))) }
{
    match desk.drafted(nid) {
        Some(object) => copied(desk.alloc(), as_message(object)),
        None => copied(desk.alloc(), old.as_ref()),
    }
}

/// A message before and after a command, where it was this before, if it was there.
fn touch_at<D: SearchDesk>(
    desk: &D,
    nid: Nid,
    old: Option<Mail>,
) -> Result<TouchedMessage, AllocError>
    ensures { IfOk result (λ t. IsAbout (D.view desk.now) (λ T. as_message (object_at T nid.bits) ≡ old → t ≡ touch_after T (D.view desk.now).changed nid.bits)) }
{
    let new = new_message(desk, nid, &old)?;
    Ok(TouchedMessage {
        nid,
        old,
        new,
        anew: desk.drafted(nid).is_some(),
    })
}

/// The message that a command made, by its reply. It wasn't there before.
fn made<D: SearchDesk>(desk: &D, coming: &Coming) -> Result<Vec<TouchedMessage>, Stop>
    ensures answer { Touches (D.view desk.now) forms.Made coming.now result }
    ensures cause { IfErr result IsCalm }
{
    match &coming.reply.last {
        LastLine::Made(nid) => {
            let touch = touch_at(desk, *nid, None)?;
            Ok(vec![in desk.alloc(); touch]?)
        }
        _ => Ok(Vec::new(desk.alloc())),
    }
}

/// The message with this id, which was there before.
fn touched_message<D: SearchDesk>(desk: &mut D, nid: Nid) -> Result<Vec<TouchedMessage>, Stop>
    ensures reads { Reads (D.view desk.old) (D.view desk.new) result }
    ensures answer { (coming : Coming) → Touches (D.view desk.old) (forms.Message nid) coming result }
{
    let old = desk.message_before(nid)?;
    let touch = touch_at(desk, nid, Some(old))?;
    Ok(vec![in desk.alloc(); touch]?)
}

/// The messages that a command touches, where it comes to this: the one that it names or makes, and all within a folder that moves.
pub(crate) fn touched<D: SearchDesk>(
    desk: &mut D,
    command: &Command,
    coming: &Coming,
) -> Result<Vec<TouchedMessage>, Stop>
    ensures reads { Reads (D.view desk.old) (D.view desk.new) result }
    ensures answer { TouchedBy (D.view desk.old) command.now coming.now result }
{
    match form_of(command) {
        TouchForm::Nothing => Ok(Vec::new(desk.alloc())),
        TouchForm::Made => made(desk, coming),
        TouchForm::Message(nid) => touched_message(desk, nid),
        TouchForm::Within { folder, parent } => carried_along(desk, folder, parent),
    }
}
