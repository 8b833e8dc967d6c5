//! The ids of new attachments.
ghost use Rattle.std.specs.Prelude.{◌≡◌, ◌<◌, ◌^◌};
ghost use Rattle.mail_tree.specs.Parts.{greatest_kept, greatest_part, next_part, part_index};

use mail_objects::Mail;
use mapi_values::Part;
use pst_base::{Nid, Subs};

/// The index of an id of an attachment's kind, 0 of another one.
#[tactic(auto, unfolding(mail_tree::specs::Parts::part_index))]
fn part_index(nid: Nid) -> u32
    ensures value { result ≡ part_index nid.bits }
    ensures few { result < 2 ^ 27 }
{
    if nid.kind() == 5 { nid.index() } else { 0 }
}

/// The greatest of these attachments' indexes.
fn greatest_part(parts: &[Part]) -> u32
    ensures value { result ≡ greatest_part parts.now }
    ensures few { result < 2 ^ 27 }
{
    let mut greatest = 0;
    for part in parts {
        greatest = greatest.max(part_index(part.nid));
    }
    greatest
}

/// The greatest index of an attachment's kind among the subnodes that a message keeps.
fn greatest_kept(kept: &Subs) -> u32
    ensures value { result ≡ greatest_kept kept.now }
    ensures few { result < 2 ^ 27 }
{
    let mut greatest = 0;
    for sub in kept.as_slice() {
        greatest = greatest.max(part_index(sub.nid));
    }
    greatest
}

/// The index that follows 400h and those of all subnodes of an attachment's kind directly in the message. It may be past the last one.
#[tactic(auto, unfolding(mail_tree::specs::Parts::next_part))]
pub fn next_part(mail: &Mail) -> u64
    ensures { result ≡ next_part mail.now }
{
    let message = mail.message();
    let parts = greatest_part(message.parts.as_slice());
    let kept = greatest_kept(&message.kept);
    u64::from(parts.max(kept).max(1024)) + 1
}
