//! The limits on what a command writes: on rows, on what stands below a node, and on properties.
ghost use Rattle.std.specs.Prelude.{◌≡◌, ℕ, List, IfErr, OnOk, length, option_copied, true};
ghost use Rattle.std.specs.FinMap as map;
ghost use Rattle.mapi_values.specs.Keyed.{find_key};
ghost use Rattle.mapi_values.specs.Messages.{part_id};
ghost use Rattle.mapi_values.specs.Values.{Val};
ghost use Rattle.mail_tree.specs.Tree.{Shown, Tree, object_at};
ghost use Rattle.mail_tree.specs.Changing.{context_crowds, crowds_message, crowds_part, entry_fits, is_crowded_message, is_crowding, is_new, message_crowds, props_of_part, unless_crowding, unless_past, within_limits};
ghost use Rattle.mail_tree.specs.Values.{crowds, is_crowded};
ghost use Rattle.mail_draft.specs.Answers.{IsCaused, Looks, Says};
ghost use Rattle.mail_draft.specs.Drafts.{all_fit, changed_of};

use crate::draft::Draft;
use crate::kept::{kept_context, kept_message};
use crate::stop::Stop;
use command_text::{CommandRefusal, Limit};
use mail_objects::{Context, Mail, Object, object_fits};
use mapi_values::{Part, Props};
use node_port::NodeReader;
use pst_base::Nid;
use pst_outside::Outside;
use std::alloc::Global;

/// The number of properties past which a command brings no object.
const MOST_PROPERTIES: usize = 1000;

/// Whether an object is small enough to be written, or is to go.
fn entry_fits(object: &Option<Object>) -> bool
    ensures { (q : ℕ) → result ≡ entry_fits (q, object.now) }
{
    match object {
        Some(object) => object_fits(object),
        None => true,
    }
}

/// Whether all objects of a draft are small enough to be written, or are to go.
fn do_all_fit(draft: &Draft) -> bool
    ensures { result ≡ all_fit (changed_of draft.now) }
{
    for (nid, object) in &draft.objects {
        let _nid = nid;
        if !entry_fits(object) {
            return false;
        }
    }
    true
}

/// Whether there are more than 1,000 properties.
fn is_crowded(props: &Props) -> bool
    ensures { result ≡ is_crowded props.now }
{
    props.len() > MOST_PROPERTIES
}

/// Whether there are more than 1,000 properties, and more than there were.
fn crowds(old_len: usize, props: &Props) -> bool
    ensures { (old : List Val) → length old ≡ old_len → result ≡ crowds old props.now }
{
    props.len() > MOST_PROPERTIES && props.len() > old_len
}

/// Whether a message, or an attachment of it, has more than 1,000 properties.
fn is_crowded_message(mail: &Mail) -> bool
    ensures { result ≡ is_crowded_message mail.now }
{
    let message = mail.message();
    is_crowded(&message.props) || message.parts.iter().any(|part| is_crowded(&part.props))
}

/// The attachment of a message with this id.
fn part_in(mail: &Mail, nid: Nid) -> Option<&Part>
    ensures { option_copied result ≡ find_key part_id nid.bits mail.now.parts }
{
    mail.message()
        .parts
        .iter()
        .find(|part| part.nid.bits == nid.bits)
}

/// How many properties the attachment of a message with this id has, 0 where there is none.
fn part_len(mail: &Mail, nid: Nid) -> usize
    ensures { result ≡ length (props_of_part (find_key part_id nid.bits mail.now.parts)) }
{
    match part_in(mail, nid) {
        Some(part) => part.props.len(),
        None => 0,
    }
}

/// Whether an attachment has more than 1,000 properties, and more than the one with its id in the message as it was.
fn crowds_part(old: &Mail, part: &Part) -> bool
    ensures { result ≡ crowds_part old.now part.now }
{
    is_crowded(&part.props) && crowds(part_len(old, part.nid), &part.props)
}

/// Whether a message, or an attachment of it, has more than 1,000 properties, and more than it had.
pub fn crowds_message(old: &Mail, mail: &Mail) -> bool
    ensures { result ≡ crowds_message old.now mail.now }
{
    let message = mail.message();
    crowds(old.message().props.len(), &message.props)
        || message.parts.iter().any(|part| crowds_part(old, part))
}

/// Whether properties that are put are more than 1,000, and more than stand there in the nodes. Those are read only where they have to be compared: new ones are compared with none.
fn context_crowds<W: Outside, K: NodeReader<W>>(
    alloc: Global,
    keeper: &mut K,
    w: &mut W,
    new: bool,
    nid: Nid,
    context: &Context,
) -> Result<bool, Stop>
    ensures answer { (T : Tree) → Shown (K.holds keeper.old (W.view w.old)) (K.last keeper.old) T → Says (λ b. b) (context_crowds new (object_at T nid.bits) context.now) result }
    ensures looks { Looks (K.holds keeper.old (W.view w.old)) (K.holds keeper.new (W.view w.new)) (K.last keeper.old) (K.last keeper.new) (K.room keeper.old) (K.room keeper.new) (W.view w.old) (W.view w.new) }
    ensures cause { IfErr result (IsCaused K.has_disk (W.view w.old).disk_faults (W.view w.new).disk_faults) }
{
    if new || !is_crowded(context.props()) {
        return Ok(is_crowded(context.props()));
    }
    let old = kept_context(alloc, keeper, w, nid)?;
    Ok(crowds(old.props().len(), context.props()))
}

/// The same of a message that is put, or of an attachment of it.
fn message_crowds<W: Outside, K: NodeReader<W>>(
    alloc: Global,
    keeper: &mut K,
    w: &mut W,
    new: bool,
    nid: Nid,
    mail: &Mail,
) -> Result<bool, Stop>
    ensures answer { (T : Tree) → Shown (K.holds keeper.old (W.view w.old)) (K.last keeper.old) T → Says (λ b. b) (message_crowds new (object_at T nid.bits) mail.now) result }
    ensures looks { Looks (K.holds keeper.old (W.view w.old)) (K.holds keeper.new (W.view w.new)) (K.last keeper.old) (K.last keeper.new) (K.room keeper.old) (K.room keeper.new) (W.view w.old) (W.view w.new) }
    ensures cause { IfErr result (IsCaused K.has_disk (W.view w.old).disk_faults (W.view w.new).disk_faults) }
{
    let crowded = is_crowded_message(mail);
    if new || !crowded {
        return Ok(crowded);
    }
    let old = kept_message(alloc, keeper, w, nid)?;
    Ok(crowds_message(&old, mail))
}

/// Whether an id is that of the new object.
fn is_new(new: Option<Nid>, nid: Nid) -> bool
    ensures { result ≡ is_new new nid.bits }
{
    match new {
        Some(new) => nid.bits == new.bits,
        None => false,
    }
}

/// Whether what is put at an id is brought past the limit on properties.
fn is_crowding<W: Outside, K: NodeReader<W>>(
    alloc: Global,
    keeper: &mut K,
    w: &mut W,
    new: Option<Nid>,
    nid: Nid,
    object: &Option<Object>,
) -> Result<bool, Stop>
    ensures answer { (T : Tree) → Shown (K.holds keeper.old (W.view w.old)) (K.last keeper.old) T → Says (λ b. b) (is_crowding T new (nid.bits, object.now)) result }
    ensures looks { Looks (K.holds keeper.old (W.view w.old)) (K.holds keeper.new (W.view w.new)) (K.last keeper.old) (K.last keeper.new) (K.room keeper.old) (K.room keeper.new) (W.view w.old) (W.view w.new) }
    ensures cause { IfErr result (IsCaused K.has_disk (W.view w.old).disk_faults (W.view w.new).disk_faults) }
{
    match object {
        Some(Object::Context(context)) => {
            context_crowds(alloc, keeper, w, is_new(new, nid), nid, context)
        }
        Some(Object::Message(mail)) => {
            message_crowds(alloc, keeper, w, is_new(new, nid), nid, mail)
        }
        _ => Ok(false),
    }
}

/// Refused where what is put at an id is brought past the limit on properties.
fn unless_past<W: Outside, K: NodeReader<W>>(
    alloc: Global,
    keeper: &mut K,
    w: &mut W,
    new: Option<Nid>,
    nid: Nid,
    object: &Option<Object>,
) -> Result<(), Stop>
    ensures answer { (T : Tree) → Shown (K.holds keeper.old (W.view w.old)) (K.last keeper.old) T → Says (λ u. u) (unless_past T new (nid.bits, object.now)) result }
    ensures looks { Looks (K.holds keeper.old (W.view w.old)) (K.holds keeper.new (W.view w.new)) (K.last keeper.old) (K.last keeper.new) (K.room keeper.old) (K.room keeper.new) (W.view w.old) (W.view w.new) }
    ensures cause { IfErr result (IsCaused K.has_disk (W.view w.old).disk_faults (W.view w.new).disk_faults) }
{
    if is_crowding(alloc, keeper, w, new, nid, object)? {
        return Err(Stop::Refused(CommandRefusal::Limit(Limit::Properties)));
    }
    Ok(())
}

/// Refused where something that a draft puts is brought past the limit on properties.
fn unless_crowding<W: Outside, K: NodeReader<W>>(
    alloc: Global,
    keeper: &mut K,
    w: &mut W,
    new: Option<Nid>,
    draft: &Draft,
) -> Result<(), Stop>
    ensures answer { (T : Tree) → Shown (K.holds keeper.old (W.view w.old)) (K.last keeper.old) T → Says (λ u. u) (unless_crowding T new (map.entries (changed_of draft.now).objects)) result }
    ensures looks { Looks (K.holds keeper.old (W.view w.old)) (K.holds keeper.new (W.view w.new)) (K.last keeper.old) (K.last keeper.new) (K.room keeper.old) (K.room keeper.new) (W.view w.old) (W.view w.new) }
    ensures cause { IfErr result (IsCaused K.has_disk (W.view w.old).disk_faults (W.view w.new).disk_faults) }
{
    for (nid, object) in &draft.objects {
        unless_past(alloc, keeper, w, new, Nid { bits: *nid }, object)?;
    }
    Ok(())
}

/// Refused where an object of a draft is too large to be written (`Rows`), or is brought past the limit on properties (`Properties`). Each is compared with what stands at its id in the nodes, but the new object, if a command makes one. Nothing is read for objects of 1,000 properties or fewer.
#[tactic(auto, unfolding(mail_tree::specs::Changing::within_limits))]
pub fn within_limits<W: Outside, K: NodeReader<W>>(
    alloc: Global,
    keeper: &mut K,
    w: &mut W,
    draft: &Draft,
    new: Option<Nid>,
) -> Result<(), Stop>
    ensures answer { (T : Tree) → Shown (K.holds keeper.old (W.view w.old)) (K.last keeper.old) T → Says (λ u. u) (within_limits T new (changed_of draft.now)) result }
    ensures looks { Looks (K.holds keeper.old (W.view w.old)) (K.holds keeper.new (W.view w.new)) (K.last keeper.old) (K.last keeper.new) (K.room keeper.old) (K.room keeper.new) (W.view w.old) (W.view w.new) }
    ensures cause { IfErr result (IsCaused K.has_disk (W.view w.old).disk_faults (W.view w.new).disk_faults) }
    ensures fits { OnOk result (all_fit (changed_of draft.now) ≡ true) }
{
    if !do_all_fit(draft) {
        return Err(Stop::Refused(CommandRefusal::Limit(Limit::Rows)));
    }
    unless_crowding(alloc, keeper, w, new, draft)
}
