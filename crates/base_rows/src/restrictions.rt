//! Restrictions as bytes, and when they hold.
ghost use Rattle.std.specs.Prelude.{◌≡◌, IsTrue};
ghost use Rattle.restr_codec.specs.Spelling.{has_spelling};

use crate::objects::message;
use crate::values::{make_value, say, say_bytes, say_whether};
use live_search::{Delta, touch};
use mapi_values::tags::PID_TAG_SUBJECT;
use mapi_values::{Message, Props};
use pst_base::{Bytes, Ledger, MemOr, Steps};
use restr_codec::{Restriction, read, write};
use restr_eval::eval;
use std::alloc::Global;
use std::fmt::Write;
use std::marker::Brand;
use std::sync::ledger::Blank;
use test_lines::{Trouble, Words, read_bytes};

/// Adds the bytes of a restriction.
fn say_restriction(alloc: Global, text: &mut String, r: &Restriction) -> Result<(), Trouble>
    requires { IsTrue (has_spelling r.now) }
{
    let bytes = write(alloc, r)?;
    say_bytes(text, bytes.as_slice())
}

/// The bytes of the restriction that bytes spell, or from where on they spell none.
pub fn ask_restriction(alloc: Global, text: &mut String, words: &mut Words) -> Result<(), Trouble> {
    let bytes = words.bytes(alloc)?;
    match read(alloc, bytes.as_slice()) {
        Ok(restriction) => say_restriction(alloc, text, &restriction),
        Err(MemOr::Refused(fault)) => say_place(text, fault.at),
        Err(MemOr::Memory) => Err(Trouble::Memory),
    }
}

fn say_place(text: &mut String, at: u64) -> Result<(), Trouble> {
    Ok(write!(text, "at {at}")?)
}

/// The restriction that a word spells.
fn restriction(alloc: Global, words: &mut Words) -> Result<Restriction, Trouble> {
    let bytes = words.bytes(alloc)?;
    read(alloc, bytes.as_slice()).ok().ok_or(Trouble::Spelling)
}

/// The subject that a word spells, or nothing after `none`.
fn values(alloc: Global, word: &str) -> Result<Props, Trouble> {
    let mut props = Props::new(alloc);
    if word != "none" {
        let bytes = Bytes::from_vec(read_bytes(alloc, word)?);
        props.put(make_value(PID_TAG_SUBJECT, bytes)?)?;
    }
    Ok(props)
}

/// The message with the subject that a word spells.
fn subject(alloc: Global, words: &mut Words) -> Result<Message, Trouble> {
    let props = values(alloc, words.word()?)?;
    Ok(message(alloc, props, None))
}

/// The message that a word tells of, which may be `gone`.
fn touched(alloc: Global, words: &mut Words) -> Result<Option<Message>, Trouble> {
    let word = words.word()?;
    if word == "gone" {
        return Ok(None);
    }
    let props = values(alloc, word)?;
    Ok(Some(message(alloc, props, None)))
}

fn holds_over<L: Ledger>(r: &Restriction, m: &Message, blank: Blank) -> bool
    requires name { blank.name ≡ L.name }
    requires parts { blank.parts ≡ L.parts }
    requires some { blank.parts ≡ 1 }
{
    let (book, share) = blank.open::<L>();
    let mut steps = Steps::new(book, share);
    eval(r, m, &mut steps)
}

fn holds(r: &Restriction, m: Message) -> bool {
    holds_over::<Brand>(r, &m, Blank::new(1))
}

/// Adds whether a restriction holds of the message with a subject.
fn say_holds(
    alloc: Global,
    text: &mut String,
    restriction: &Restriction,
    words: &mut Words,
) -> Result<(), Trouble> {
    let message = subject(alloc, words)?;
    say_whether(text, holds(restriction, message))
}

/// Whether a restriction holds of the message with a subject.
pub fn ask_holds(alloc: Global, text: &mut String, words: &mut Words) -> Result<(), Trouble> {
    let restriction = restriction(alloc, words)?;
    say_holds(alloc, text, &restriction, words)
}

fn delta_over<L: Ledger>(
    r: &Restriction,
    old: Option<&Message>,
    new: Option<&Message>,
    blank: Blank,
) -> Delta
    requires name { blank.name ≡ L.name }
    requires parts { blank.parts ≡ L.parts }
    requires some { blank.parts ≡ 1 }
{
    let (book, share) = blank.open::<L>();
    let mut steps = Steps::new(book, share);
    touch(r, old, new, &mut steps)
}

fn delta(r: &Restriction, old: Option<Message>, new: Option<Message>) -> Delta {
    delta_over::<Brand>(r, old.as_ref(), new.as_ref(), Blank::new(1))
}

fn delta_word(delta: Delta) -> &'static str {
    match delta {
        Delta::Same => "same",
        Delta::Enter => "enter",
        Delta::Stay => "stay",
        Delta::Leave => "leave",
    }
}

/// Adds what becomes of a message in the list of a search.
fn say_touch(
    alloc: Global,
    text: &mut String,
    restriction: &Restriction,
    words: &mut Words,
) -> Result<(), Trouble> {
    let old = touched(alloc, words)?;
    let new = touched(alloc, words)?;
    say(text, delta_word(delta(restriction, old, new)))
}

/// What a change of a message does to the list of a search.
pub fn ask_touch(alloc: Global, text: &mut String, words: &mut Words) -> Result<(), Trouble> {
    let restriction = restriction(alloc, words)?;
    say_touch(alloc, text, &restriction, words)
}
