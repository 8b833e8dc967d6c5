//! Where the attachments of a message stand.
ghost use Rattle.std.specs.Prelude.{◌≡◌, MatchResult, OnOk, true, option_copied};
ghost use Rattle.mapi_values.specs.Keyed.{IsGap, IsHere, keys_ascend, put_key};
ghost use Rattle.mapi_values.specs.Messages.{part_id};
ghost use Rattle.mail_tree.specs.Parts.{part_in};

use mail_objects::Mail;
use mapi_values::{Part, Props};
use pst_base::Nid;
use std::alloc::AllocError;

/// Where the row with this id stands, or else where one with it would.
fn row_place(rows: &[(u32, Props)], nid: Nid) -> Result<usize, usize>
    requires { keys_ascend (λ r. r.0) 0 rows.now ≡ true }
    ensures { MatchResult result (IsHere (λ r. r.0) nid.bits rows.now) (IsGap (λ r. r.0) nid.bits rows.now) }
{
    rows.binary_search_by_key(&nid.bits, |row| row.0)
}

/// Where the attachment with this id stands in a message, or else where one with it would: attachments stand in the order of their rows.
pub(crate) fn place(mail: &Mail, nid: Nid) -> Result<usize, usize>
    ensures place { MatchResult result (IsHere part_id nid.bits mail.now.parts) (IsGap part_id nid.bits mail.now.parts) }
    ensures ascend { keys_ascend part_id 0 mail.now.parts ≡ true }
{
    match &mail.message().attachments {
        Some(table) => row_place(table.rows(), nid),
        None => Err(0),
    }
}

/// The attachment of a message with this id.
pub fn part_in(mail: &Mail, nid: Nid) -> Option<&Part>
    ensures { option_copied result ≡ part_in nid.bits mail.now }
{
    match place(mail, nid) {
        Ok(i) => Some(&mail.message().parts[i]),
        Err(_) => None,
    }
}

/// Puts an attachment at its place.
pub(crate) fn put_at(
    parts: &mut Vec<Part>,
    spot: Result<usize, usize>,
    part: Part,
) -> Result<(), AllocError>
    requires place { MatchResult spot (IsHere part_id (part_id part) parts.old.items) (IsGap part_id (part_id part) parts.old.items) }
    requires ascend { keys_ascend part_id 0 parts.old.items ≡ true }
    ensures { OnOk result (parts.new.items ≡ put_key part_id part parts.old.items) }
{
    match spot {
        Ok(i) => {
            parts[i] = part;
            Ok(())
        }
        Err(i) => {
            parts.insert(i, part)?;
            Ok(())
        }
    }
}
