//! A reply as text.
ghost use Rattle.std.specs.Prelude.{◌≡◌, ◌++◌, IfOk, OnOk, map, string_bytes};
ghost use Rattle.command_text.specs.Limits.{limit_word};
ghost use Rattle.command_text.specs.Refusals.{refusal_words};
ghost use Rattle.command_text.specs.Replies.{criteria_text, more_ids_text, scope_text, state_word, id_text, name_end, listed, message_text, property_text, recipient_text, attachment_text, data_text, ok_id_text, last_words, last_text, text};

use crate::reply::{CommandRefusal, DataLine, LastLine, Limit, Reply};
use crate::scope::Scope;
use mapi_values::{Tag, Units, push_quoted};
use pst_base::{Bytes, Nid};
use search_obj::SearchState;
use std::alloc::{AllocError, Global};
use std::fmt::Write;
use value_text::{push_hex, push_signed, value_text};

/// Puts an id at the end of a text.
#[tactic(auto, unfolding(crate::specs::Replies::id_text))]
fn push_id(text: &mut String, id: Nid) -> Result<(), AllocError>
    ensures { OnOk result (string_bytes text.new ≡ string_bytes text.old ++ id_text id.bits) }
{
    write!(text, "0x{:x}", id.bits)
}

/// Puts the end of a line at the end of a text: a space, a name in quotes, and LF.
#[tactic(auto, unfolding(crate::specs::Replies::name_end))]
fn push_name_end(text: &mut String, name: &Units) -> Result<(), AllocError>
    ensures { OnOk result (string_bytes text.new ≡ string_bytes text.old ++ name_end name.now) }
{
    text.push(' ')?;
    push_quoted(text, name)?;
    text.push('\n')
}

/// Puts the line of a folder at the end of a text.
#[tactic(auto, unfolding(crate::specs::Replies::listed))]
fn push_listed(text: &mut String, kind: &str, id: Nid, name: &Units) -> Result<(), AllocError>
    ensures { OnOk result (string_bytes text.new ≡ string_bytes text.old ++ listed kind.now id.bits name.now) }
{
    text.push_str("- ")?;
    push_id(text, id)?;
    write!(text, " {kind}")?;
    push_name_end(text, name)
}

/// Puts the line of a message at the end of a text.
#[tactic(auto, unfolding(crate::specs::Replies::message_text))]
fn push_message(text: &mut String, id: Nid, size: u32, subject: &Units) -> Result<(), AllocError>
    ensures { OnOk result (string_bytes text.new ≡ string_bytes text.old ++ message_text id.bits size subject.now) }
{
    text.push_str("- ")?;
    push_id(text, id)?;
    text.push_str(" message ")?;
    push_signed(text, 1 << 31, u64::from(size))?;
    push_name_end(text, subject)
}

/// Puts the line of a property at the end of a text.
#[tactic(auto, unfolding(crate::specs::Replies::property_text))]
fn push_property(text: &mut String, tag: Tag, len: u64) -> Result<(), AllocError>
    ensures { OnOk result (string_bytes text.new ≡ string_bytes text.old ++ property_text tag len) }
{
    writeln!(text, "- 0x{:04x}{:04x} {len}", tag.id, tag.kind)
}

/// Puts the line of a recipient at the end of a text.
#[tactic(auto, unfolding(crate::specs::Replies::recipient_text))]
fn push_recipient(
    text: &mut String,
    row: u32,
    kind: u32,
    address: &Units,
    name: &Units,
) -> Result<(), AllocError>
    ensures { OnOk result (string_bytes text.new ≡ string_bytes text.old ++ recipient_text row kind address.now name.now) }
{
    write!(text, "- rcpt {row} ")?;
    push_signed(text, 1 << 31, u64::from(kind))?;
    text.push(' ')?;
    push_quoted(text, address)?;
    push_name_end(text, name)
}

/// Puts the line of an attachment at the end of a text.
#[tactic(auto, unfolding(crate::specs::Replies::attachment_text))]
fn push_attachment(text: &mut String, id: Nid, len: u64, name: &Units) -> Result<(), AllocError>
    ensures { OnOk result (string_bytes text.new ≡ string_bytes text.old ++ attachment_text id.bits len name.now) }
{
    text.push_str("- attach ")?;
    push_id(text, id)?;
    write!(text, " {len}")?;
    push_name_end(text, name)
}

/// Puts a line of data at the end of a text.
#[tactic(auto, unfolding(crate::specs::Replies::data_text))]
fn push_data(text: &mut String, line: &DataLine) -> Result<(), AllocError>
    ensures { OnOk result (string_bytes text.new ≡ string_bytes text.old ++ data_text line.now) }
{
    match line {
        DataLine::Folder { id, name } => push_listed(text, "folder", *id, name),
        DataLine::Search { id, name } => push_listed(text, "search", *id, name),
        DataLine::Foreign { id, name } => push_listed(text, "foreign", *id, name),
        DataLine::Message { id, size, subject } => push_message(text, *id, *size, subject),
        DataLine::Property { tag, len } => push_property(text, *tag, *len),
        DataLine::Recipient {
            row,
            kind,
            address,
            name,
        } => { push_recipient(text, *row, *kind, address, name) }
        DataLine::Attachment { id, len, name } => push_attachment(text, *id, *len, name),
    }
}

/// The word of a limit.
#[tactic(auto, unfolding(crate::specs::Limits::limit_word))]
fn limit_word(limit: Limit) -> &'static str
    ensures { result.now ≡ limit_word limit }
{
    match limit {
        Limit::Line => "line",
        Limit::Depth => "depth",
        Limit::Rows => "rows",
        Limit::Properties => "properties",
        Limit::Value => "value",
        Limit::Searches => "searches",
        Limit::Names => "names",
        Limit::Nesting => "nesting",
    }
}

/// Puts the words of a refusal at the end of a text.
#[tactic(auto, unfolding(crate::specs::Refusals::refusal_words))]
fn push_refusal(text: &mut String, refusal: CommandRefusal) -> Result<(), AllocError>
    ensures { OnOk result (string_bytes text.new ≡ string_bytes text.old ++ refusal_words refusal) }
{
    match refusal {
        CommandRefusal::Object => text.push_str("object"),
        CommandRefusal::NameTaken => text.push_str("name-taken"),
        CommandRefusal::NotEmpty => text.push_str("not-empty"),
        CommandRefusal::Cycle => text.push_str("cycle"),
        CommandRefusal::Reserved => text.push_str("reserved"),
        CommandRefusal::Embedded => text.push_str("embedded"),
        CommandRefusal::Property => text.push_str("property"),
        CommandRefusal::Value => text.push_str("value"),
        CommandRefusal::Line => text.push_str("line"),
        CommandRefusal::Protected => text.push_str("protected"),
        CommandRefusal::Restriction { at } => write!(text, "restriction {at}"),
        CommandRefusal::Scope => text.push_str("scope"),
        CommandRefusal::Flags => text.push_str("flags"),
        CommandRefusal::Criteria => text.push_str("criteria"),
        CommandRefusal::Limit(limit) => write!(text, "limit {}", limit_word(limit)),
        CommandRefusal::Ids => text.push_str("ids"),
        CommandRefusal::Full { free, need } => write!(text, "full {free} {need}"),
    }
}

/// Puts ids at the end of a text, each behind a comma.
fn push_more_ids(text: &mut String, ids: &[Nid]) -> Result<(), AllocError>
    ensures { OnOk result (string_bytes text.new ≡ string_bytes text.old ++ more_ids_text (map (λ n. n.bits) ids.now)) }
{
    for id in ids {
        text.push(',')?;
        push_id(text, *id)?;
    }
    Ok(())
}

/// Puts the ids of folders with commas between them at the end of a text, a `-` for none.
#[tactic(auto, unfolding(crate::specs::Replies::scope_text))]
fn push_scope(text: &mut String, scope: &Scope) -> Result<(), AllocError>
    ensures { OnOk result (string_bytes text.new ≡ string_bytes text.old ++ scope_text scope.now) }
{
    match scope.as_slice() {
        [] => text.push('-'),
        [first, others @ ..] => {
            push_id(text, *first)?;
            push_more_ids(text, others)
        }
    }
}

/// What a search does as messages change, as a word.
#[tactic(auto, unfolding(crate::specs::Replies::state_word))]
fn state_word(state: SearchState) -> &'static str
    ensures { result.now ≡ state_word state }
{
    match state {
        SearchState::Running => "running",
        SearchState::Static => "static",
        SearchState::Stopped => "stopped",
    }
}

/// Puts what was set of a search at the end of a text.
#[tactic(auto, unfolding(crate::specs::Replies::criteria_text))]
fn push_criteria(
    text: &mut String,
    flags: u32,
    scope: &Scope,
    restriction: &Bytes,
    state: SearchState,
    builds: u32,
) -> Result<(), AllocError>
    ensures { OnOk result (string_bytes text.new ≡ string_bytes text.old ++ criteria_text flags scope.now restriction.now state builds) }
{
    push_id(text, Nid { bits: flags })?;
    text.push(' ')?;
    push_scope(text, scope)?;
    text.push(' ')?;
    push_hex(text, restriction.as_slice())?;
    write!(text, " {} {builds}", state_word(state))
}

/// Puts `ok` and an id at the end of a text.
fn push_ok_id(text: &mut String, id: Nid) -> Result<(), AllocError>
    ensures { OnOk result (string_bytes text.new ≡ string_bytes text.old ++ ok_id_text id.bits) }
{
    text.push_str("ok ")?;
    push_id(text, id)
}

/// Puts the words of a last line at the end of a text.
#[tactic(auto, unfolding(crate::specs::Replies::last_words))]
fn push_last_words(alloc: Global, text: &mut String, last: &LastLine) -> Result<(), AllocError>
    ensures { OnOk result (string_bytes text.new ≡ string_bytes text.old ++ last_words last.now) }
{
    match last {
        LastLine::Done => text.push_str("ok"),
        LastLine::Made(id) | LastLine::Attached(id) => push_ok_id(text, *id),
        LastLine::Count(count) => write!(text, "ok {count}"),
        LastLine::Row(row) => write!(text, "ok {row}"),
        LastLine::Named(property) => {
            let bits = u32::from(*property);
            push_ok_id(text, Nid { bits })
        }
        LastLine::Value(value) => {
            text.push_str("ok ")?;
            text.push_str(value_text(alloc, value)?.as_str())
        }
        LastLine::Criteria {
            flags,
            scope,
            restriction,
            state,
            builds,
        } => {
            text.push_str("ok ")?;
            push_criteria(text, *flags, scope, restriction, *state, *builds)
        }
        LastLine::NoCriteria => text.push_str("ok none"),
        LastLine::Refused(refusal) => {
            text.push_str("no ")?;
            push_refusal(text, *refusal)
        }
        LastLine::NoMemory => text.push_str("no memory"),
    }
}

/// Puts the last line of a reply at the end of a text.
fn push_last(alloc: Global, text: &mut String, last: &LastLine) -> Result<(), AllocError>
    ensures { OnOk result (string_bytes text.new ≡ string_bytes text.old ++ last_text last.now) }
{
    push_last_words(alloc, text, last)?;
    text.push('\n')
}

/// The bytes of a reply: its lines of data, each behind `- `, and its last line, which begins with `ok` or `no`. Every line ends with LF, and every id is in lower-case hex.
#[tactic(auto, unfolding(crate::specs::Replies::text))]
pub fn reply_text(alloc: Global, reply: &Reply) -> Result<Bytes, AllocError>
    ensures { IfOk result (λ bytes. bytes ≡ text reply.now) }
{
    let mut text = String::new(alloc);
    for line in reply.lines.as_slice() {
        push_data(&mut text, line)?;
    }
    push_last(alloc, &mut text, &reply.last)?;
    Ok(Bytes::from_vec(text.into_bytes()))
}
