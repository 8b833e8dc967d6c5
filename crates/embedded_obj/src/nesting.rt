//! How deep the subnodes of a message stand.
ghost use Rattle.std.specs.Prelude.{◌≡◌, nat_le};
ghost use Rattle.std.specs.List.{list_any};
ghost use Rattle.embedded_obj.specs.Embedding.{nests_deep, part_sinks, table_sinks};

use mail_objects::Mail;
use mapi_values::{Part, Table};
use pst_base::Subs;

/// The first level of a message's own subnodes that comes to stand below level 8.
const FIRST_SUNK: u8 = 6;

/// Whether a subnode stands at this level, counted from 0, or deeper.
fn reaches(subs: &Subs, level: u8) -> bool
    ensures { result ≡ list_any (λ f. nat_le level f.level) subs.now }
{
    let entries = subs.as_slice();
    if level == 0 {
        return !entries.is_empty();
    }
    for sub in entries {
        if reaches(&sub.subs, level - 1) {
            return true;
        }
    }
    false
}

/// Whether a subnode that a table keeps would stand below level 8. They stand one level below those of the message.
fn table_sinks(table: &Option<Table>) -> bool
    ensures { result ≡ table_sinks table.now }
{
    match table {
        Some(table) => reaches(table.kept(), FIRST_SUNK - 1),
        None => false,
    }
}

/// Whether a subnode that an attachment keeps would. They stand one level below those of the message too.
fn part_sinks(part: &Part) -> bool
    ensures { result ≡ part_sinks part.now }
{
    reaches(&part.kept, FIRST_SUNK - 1)
}

/// Whether a subnode that one of these attachments keeps would.
fn parts_sink(parts: &[Part]) -> bool
    ensures { result ≡ list_any part_sinks parts.now }
{
    parts.iter().any(|part| part_sinks(part))
}

/// Whether a message would have a subnode below level 8 once it is embedded.
#[tactic(auto, unfolding(crate::specs::Embedding::nests_deep))]
pub fn nests_deep(mail: &Mail) -> bool
    ensures { result ≡ nests_deep mail.now }
{
    let message = mail.message();
    reaches(&message.kept, FIRST_SUNK)
        || table_sinks(&message.recipients)
        || table_sinks(&message.attachments)
        || parts_sink(message.parts.as_slice())
}
