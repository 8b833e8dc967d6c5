//! How many messages rows name.
ghost use Rattle.std.specs.Prelude.{◌≡◌, ◌≤◌, ◌<◌, ◌+◌};
ghost use Rattle.mail_draft.specs.Sight.{Answers, Reads};
ghost use Rattle.search_results.specs.Counting.{flag_at, found_at, kept_flag, message_told, none_if_refused, pair_of, tally, with_flag};

use crate::desk::SearchDesk;
use mail_draft::{Stop, flag_of};
use mail_folders::FolderDesk;
use mail_messages::on_desk::message_in;
use mail_objects::{Mail, Object};
use pst_base::Nid;

/// How many messages there are, and how many of them weren't read. Contracts see `pair_of` it.
#[derive(Clone, Copy, Debug, PartialEq, Eq)]
pub(crate) struct Tally {
    pub(crate) messages: u64,
    pub(crate) unread: u64,
}

/// No message, where it was refused to find one. Any other stop stays.
fn none_if_refused(stop: Stop) -> Result<Option<Mail>, Stop>
    ensures { result ≡ none_if_refused stop }
{
    match stop {
        Stop::Refused(_) => Ok(None),
        stop => Err(stop),
    }
}

/// The message at an id, or `None` where the tree has none there: a node may stand there that no folder lists.
#[tactic(auto, using(crate::proofs::FlagLaws::found_ok, crate::proofs::FlagLaws::found_stop))]
fn found_message<D: FolderDesk>(desk: &mut D, nid: Nid) -> Result<Option<Mail>, Stop>
    ensures reads { Reads (D.view desk.old) (D.view desk.new) result }
    ensures answer { Answers (D.view desk.old) (λ m. m) (λ T c. found_at T nid.bits) result }
{
    match message_in(desk, nid) {
        Ok(mail) => Ok(Some(mail)),
        Err(stop) => none_if_refused(stop),
    }
}

/// Whether the tree has a message at an id. The nodes are asked only where nothing is known of it.
#[tactic(auto, using(crate::proofs::FlagLaws::known_told, crate::proofs::FlagLaws::told_found, crate::proofs::FlagLaws::told_stop))]
pub fn is_message<D: FolderDesk>(desk: &mut D, nid: Nid) -> Result<bool, Stop>
    ensures reads { Reads (D.view desk.old) (D.view desk.new) result }
    ensures answer { Answers (D.view desk.old) (λ b. b) (λ T c. message_told T nid.bits) result }
{
    if desk.flags().get(nid.bits).is_some() {
        return Ok(true);
    }
    let found = found_message(desk, nid)?;
    Ok(found.is_some())
}

/// Whether the message at an id is unread, or `None` where the tree has none there.
#[tactic(auto, using(crate::proofs::FlagLaws::flag_found, crate::proofs::FlagLaws::flag_stop))]
fn read_flag<D: FolderDesk>(desk: &mut D, nid: Nid) -> Result<Option<bool>, Stop>
    ensures reads { Reads (D.view desk.old) (D.view desk.new) result }
    ensures answer { Answers (D.view desk.old) (λ f. f) (λ T c. kept_flag T nid.bits) result }
{
    match found_message(desk, nid)? {
        Some(mail) => Ok(flag_of(&Some(Object::Message(mail)))),
        None => Ok(None),
    }
}

/// Whether the message that the nodes have at an id is unread, or `None` where the tree has none there. The nodes are asked only where nothing is known of it.
fn kept_flag<D: FolderDesk>(desk: &mut D, nid: Nid) -> Result<Option<bool>, Stop>
    ensures reads { Reads (D.view desk.old) (D.view desk.new) result }
    ensures answer { Answers (D.view desk.old) (λ f. f) (λ T c. kept_flag T nid.bits) result }
{
    match desk.flags().get(nid.bits) {
        Some(unread) => Ok(Some(unread)),
        None => read_flag(desk, nid),
    }
}

/// Whether the message at an id is unread, or `None` where nothing stands there.
fn flag_at<D: SearchDesk>(desk: &mut D, nid: Nid) -> Result<Option<bool>, Stop>
    ensures reads { Reads (D.view desk.old) (D.view desk.new) result }
    ensures answer { Answers (D.view desk.old) (λ f. f) (λ T c. flag_at T c nid.bits) result }
{
    match desk.drafted(nid) {
        Some(object) => Ok(flag_of(object)),
        None => kept_flag(desk, nid),
    }
}

/// A count with one more message, if there is one, which is unread or not.
fn with_flag(count: Tally, flag: Option<bool>) -> Tally
    requires few { count.messages < 18446744073709551615 }
    requires fewer { count.unread ≤ count.messages }
    ensures count { pair_of result ≡ with_flag flag (pair_of count) }
    ensures few { result.messages ≤ count.messages + 1 }
    ensures fewer { result.unread ≤ result.messages }
{
    match flag {
        Some(true) => Tally {
            messages: count.messages + 1,
            unread: count.unread + 1,
        },
        Some(false) => Tally {
            messages: count.messages + 1,
            unread: count.unread,
        },
        None => count,
    }
}

/// How many messages stand at these ids, and how many of them weren't read.
pub(crate) fn tallied<D: SearchDesk>(desk: &mut D, ids: &[u32]) -> Result<Tally, Stop>
    ensures reads { Reads (D.view desk.old) (D.view desk.new) result }
    ensures answer { Answers (D.view desk.old) pair_of (λ T c. tally T c ids.now) result }
{
    let mut count = Tally {
        messages: 0,
        unread: 0,
    };
    for id in ids {
        let flag = flag_at(desk, Nid { bits: *id })?;
        count = with_flag(count, flag);
    }
    Ok(count)
}
