//! The commands of a large input.
ghost use Rattle.std.specs.Prelude.{◌≡◌, ◌<◌, ◌^◌, IfOk, length};
ghost use Rattle.bulk_maker.specs.Bulk.{body, criteria_command, folder_command, message_command, message_values, restriction, search_command, subject};

use crate::texts::{numbered, text_value, units_of};
use command_text::{Command, Scope};
use mapi_values::tags::{PID_TAG_BODY, PID_TAG_SUBJECT};
use mapi_values::{Props, Units};
use pst_base::{Bytes, Nid};
use std::alloc::{AllocError, Global};
use value_text::bytes_of_units;

/// The command that makes the folder of a seed. An `Err` comes only where no memory is left.
pub fn folder_command(alloc: Global, parent: Nid, seed: u32) -> Result<Command, AllocError>
    ensures { IfOk result (λ command. command ≡ folder_command parent seed) }
{
    let name = numbered(alloc, "Fill", seed)?;
    Ok(Command::MakeFolder { parent, name })
}

/// The command that makes the search of a seed. An `Err` comes only where no memory is left.
pub fn search_command(alloc: Global, parent: Nid, seed: u32) -> Result<Command, AllocError>
    ensures { IfOk result (λ command. command ≡ search_command parent seed) }
{
    let name = numbered(alloc, "Find", seed)?;
    Ok(Command::MakeSearch { parent, name })
}

/// A restriction as a criteria object spells it, up to its text: the substring `text`, whatever its case, in the subject.
const SUBJECT_HAS: [u8; 13] = [3, 1, 0, 1, 0, 0x1F, 0, 0x37, 0, 0x1F, 0, 0x37, 0];

/// The restriction that the subject has the word `invoice`.
fn restriction(alloc: Global) -> Result<Bytes, AllocError>
    ensures { IfOk result (λ bytes. bytes ≡ restriction) }
{
    let word = units_of(alloc, b"invoice\0")?;
    let word = bytes_of_units(alloc, &word)?;
    let mut bytes = Vec::from_slice(alloc, &SUBJECT_HAS)?;
    bytes.extend_from_slice(word.as_slice())?;
    Ok(Bytes::from_vec(bytes))
}

/// The command by which a search looks in a folder for messages whose subject has the word `invoice`. An `Err` comes only where no memory is left.
pub fn criteria_command(alloc: Global, search: Nid, folder: Nid) -> Result<Command, AllocError>
    ensures { IfOk result (λ command. command ≡ criteria_command search folder) }
{
    let scope = Scope::from_vec(vec![in alloc; folder]?);
    Ok(Command::SetCriteria {
        search,
        flags: 2,
        scope: Some(scope),
        restriction: Some(restriction(alloc)?),
    })
}

/// The subject of a message: each third is an invoice.
fn subject(alloc: Global, seed: u32, index: u32) -> Result<Units, AllocError>
    ensures { IfOk result (λ units. units ≡ subject seed index) }
{
    let word = if (u64::from(seed) + u64::from(index)) % 3 == 0 {
        "invoice"
    } else {
        "letter"
    };
    numbered(alloc, word, index)
}

/// The body of a message, of up to 9,750 letters.
fn body(alloc: Global, index: u32) -> Result<Units, AllocError>
    ensures text { IfOk result (λ units. units ≡ body index) }
    ensures short { IfOk result (λ units. length units < 2 ^ 31) }
{
    let len = (index % 40) as usize * 250;
    Ok(Units::from_vec(vec![in alloc; u16::from(b'a'); len]?))
}

/// The values that a message gets beside those of every new message.
fn message_values(alloc: Global, seed: u32, index: u32) -> Result<Props, AllocError>
    ensures { IfOk result (λ values. values ≡ message_values seed index) }
{
    let subject = subject(alloc, seed, index)?;
    let body = body(alloc, index)?;
    let mut values = Props::new(alloc);
    values.put(text_value(alloc, PID_TAG_SUBJECT.id, &subject)?)?;
    values.put(text_value(alloc, PID_TAG_BODY.id, &body)?)?;
    Ok(values)
}

/// The command that makes a message of a seed. An `Err` comes only where no memory is left.
pub fn message_command(
    alloc: Global,
    folder: Nid,
    seed: u32,
    index: u32,
) -> Result<Command, AllocError>
    ensures { IfOk result (λ command. command ≡ message_command folder seed index) }
{
    let class = units_of(alloc, b"IPM.Note")?;
    let values = message_values(alloc, seed, index)?;
    Ok(Command::NewMessage {
        folder,
        class,
        time: u64::from(index),
        values,
    })
}
