//! `new`
ghost use Rattle.std.specs.Prelude.{◌≡◌, IfOk};
ghost use Rattle.mail_tree.specs.Changing.{nothing};
ghost use Rattle.mail_tree.specs.Messages.{given_message, new_message, plain_message};
ghost use Rattle.mail_tree.specs.Values.{finished, message_props};
ghost use Rattle.mail_tree.specs.Ids.{new_id};
ghost use Rattle.mail_draft.specs.Desks.{Comes};
ghost use Rattle.mail_draft.specs.Sight.{Drafts};
ghost use Rattle.mail_messages.specs.Parts.{making_in};

use crate::adding::{adding, index_in};
use crate::find::check_plain;
use crate::giving::check_given;
use crate::mails::{finished, message_props, plain_message};
use command_text::CommandRefusal;
use mail_draft::{Coming, CountingDesk, Stop, new_id};
use mail_objects::{Context, Mail};
use mapi_values::{Props, Units};
use pst_base::Nid;
use std::alloc::{AllocError, Global};

/// The node of the store's own values.
const STORE: Nid = Nid { bits: 0x21 };

/// A new message of a class and a time with this index in a folder, in a store of these values, given those.
fn new_mail(
    alloc: Global,
    folder: Nid,
    class: &Units,
    time: u64,
    store: &Context,
    values: &Props,
    index: u64,
) -> Result<Mail, AllocError>
    ensures { IfOk result (λ m. m ≡ finished (plain_message (new_id 4 index) folder.bits (message_props (new_id 4 index) class.now time store.now.props values.now))) }
{
    let nid = new_id(4, index);
    let props = message_props(alloc, nid, class, time, store.props(), values)?;
    finished(alloc, plain_message(alloc, nid, folder, props))
}

/// Makes a message of a class and a time in a folder, if it has room for it, in a store of these values, given those.
fn make_message<D: CountingDesk>(
    desk: &mut D,
    folder: Nid,
    class: &Units,
    time: u64,
    store: &Context,
    values: &Props,
) -> Result<Coming, Stop>
    requires fresh { (D.view desk.old).changed ≡ nothing }
    ensures drafts { Drafts (D.view desk.old) (D.view desk.new) result }
    ensures answer { Comes (D.view desk.old) (D.view desk.new) (λ T c. making_in T folder.bits class.now time store.now.props values.now) result }
{
    let index = index_in(desk, folder)?;
    let mail = new_mail(desk.alloc(), folder, class, time, store, values, index)?;
    adding(desk, mail, index)
}

/// A new message of a class and a time in a folder, with values that it may be given.
fn given_message<D: CountingDesk>(
    desk: &mut D,
    folder: Nid,
    class: &Units,
    time: u64,
    values: &Props,
) -> Result<Coming, Stop>
    requires fresh { (D.view desk.old).changed ≡ nothing }
    ensures drafts { Drafts (D.view desk.old) (D.view desk.new) result }
    ensures answer { Comes (D.view desk.old) (D.view desk.new) (λ T c. given_message T folder.bits class.now time values.now) result }
{
    check_plain(desk.places(), folder, CommandRefusal::Reserved)?;
    let store = desk.context_before(STORE)?;
    make_message(desk, folder, class, time, &store, values)
}

/// A new message of a class and a time in a folder, with these values beside those that each new message has. Refused, in this order: a value is one that a new message has of its own or the store keeps itself, its id needs a name, or it is an object (`Protected`), the folder isn't there (`Object`) or isn't plain (`Reserved`), its table would have too many rows (`Limit(Rows)`), a folder or the message would have too many values (`Limit(Properties)`), no index is left (`Ids`).
pub fn new_message<D: CountingDesk>(
    desk: &mut D,
    folder: Nid,
    class: &Units,
    time: u64,
    values: &Props,
) -> Result<Coming, Stop>
    requires fresh { (D.view desk.old).changed ≡ nothing }
    ensures drafts { Drafts (D.view desk.old) (D.view desk.new) result }
    ensures answer { Comes (D.view desk.old) (D.view desk.new) (λ T c. new_message T folder.bits class.now time values.now) result }
{
    check_given(values)?;
    given_message(desk, folder, class, time, values)
}
