//! Replies as text.
use crate::values::tag;
use command_text::{CommandRefusal, DataLine, DataLines, LastLine, Reply, reply_text};
use mapi_values::{Units, parse_units};
use pst_base::{MemOr, Nid};
use std::alloc::Global;
use std::str;
use test_lines::{Trouble, Words};

/// The units of a text with its escapes.
fn units(alloc: Global, text: &str) -> Result<Units, Trouble> {
    match parse_units(alloc, text) {
        Ok(units) => Ok(units),
        Err(MemOr::Refused(_)) => Err(Trouble::Spelling),
        Err(MemOr::Memory) => Err(Trouble::Memory),
    }
}

fn nid(words: &mut Words) -> Result<Nid, Trouble> {
    Ok(Nid { bits: words.id()? })
}

fn search(alloc: Global, words: &mut Words) -> Result<DataLine, Trouble> {
    let id = nid(words)?;
    let name = units(alloc, words.rest())?;
    Ok(DataLine::Search { id, name })
}

fn foreign(alloc: Global, words: &mut Words) -> Result<DataLine, Trouble> {
    let id = nid(words)?;
    let name = units(alloc, words.rest())?;
    Ok(DataLine::Foreign { id, name })
}

fn message(alloc: Global, words: &mut Words) -> Result<DataLine, Trouble> {
    let id = nid(words)?;
    let size = words.id()?;
    let subject = units(alloc, words.rest())?;
    Ok(DataLine::Message { id, size, subject })
}

fn recipient(alloc: Global, words: &mut Words) -> Result<DataLine, Trouble> {
    let row = words.id()?;
    let kind = words.id()?;
    let address = units(alloc, words.word()?)?;
    let name = units(alloc, words.rest())?;
    Ok(DataLine::Recipient {
        row,
        kind,
        address,
        name,
    })
}

fn attachment(alloc: Global, words: &mut Words) -> Result<DataLine, Trouble> {
    let id = nid(words)?;
    let len = words.number()?;
    let name = units(alloc, words.rest())?;
    Ok(DataLine::Attachment { id, len, name })
}

fn property(words: &mut Words) -> Result<DataLine, Trouble> {
    let tag = tag(words.word()?)?;
    let len = words.number()?;
    Ok(DataLine::Property { tag, len })
}

/// The line of data that words say.
fn line(alloc: Global, sort: &str, words: &mut Words) -> Result<DataLine, Trouble> {
    match sort {
        "search" => search(alloc, words),
        "foreign" => foreign(alloc, words),
        "message" => message(alloc, words),
        "rcpt" => recipient(alloc, words),
        "attach" => attachment(alloc, words),
        "property" => property(words),
        _ => Err(Trouble::Spelling),
    }
}

/// The refusal of a command that words say.
fn refusal(sort: &str, words: &mut Words) -> Result<CommandRefusal, Trouble> {
    match sort {
        "full" => Ok(CommandRefusal::Full {
            free: words.number()?,
            need: words.number()?,
        }),
        "restriction" => Ok(CommandRefusal::Restriction {
            at: words.number()?,
        }),
        _ => Err(Trouble::Spelling),
    }
}

/// The last line that words say.
fn last(words: &mut Words) -> Result<LastLine, Trouble> {
    match words.word()? {
        "memory" => Ok(LastLine::NoMemory),
        sort => Ok(LastLine::Refused(refusal(sort, words)?)),
    }
}

/// Adds a text, with each LF as `\n`.
fn say_escaped(text: &mut String, said: &str) -> Result<(), Trouble> {
    for letter in said.chars() {
        if letter == '\n' {
            text.push_str("\\n")?;
        } else {
            text.push(letter)?;
        }
    }
    Ok(())
}

/// Adds the text of a reply.
fn say_reply(alloc: Global, text: &mut String, reply: &Reply) -> Result<(), Trouble> {
    let said = reply_text(alloc, reply)?;
    match str::from_utf8(said.as_slice()) {
        Ok(said) => say_escaped(text, said),
        Err(_) => Err(Trouble::Spelling),
    }
}

/// A reply with one line of data.
fn reply_of(alloc: Global, line: DataLine) -> Result<Reply, Trouble> {
    let mut lines = Vec::new(alloc);
    lines.push(line)?;
    Ok(Reply {
        lines: DataLines::from_vec(lines),
        last: LastLine::Count(1),
    })
}

/// The reply that words say.
fn reply(alloc: Global, words: &mut Words) -> Result<Reply, Trouble> {
    match words.word()? {
        "last" => Ok(Reply::without_data(alloc, last(words)?)),
        sort => reply_of(alloc, line(alloc, sort, words)?),
    }
}

/// The text of a reply, with each LF as `\n`.
pub fn ask_reply(alloc: Global, text: &mut String, words: &mut Words) -> Result<(), Trouble> {
    let reply = reply(alloc, words)?;
    say_reply(alloc, text, &reply)
}
