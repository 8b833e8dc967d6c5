//! The words of the command line.
ghost use Rattle.std.specs.Prelude.{◌≡◌, true, IfOk, OnErr};
ghost use Rattle.mail_session.specs.Words.{numbers_of, spelled, within};
ghost use Rattle.mail_session.specs.Asking.{AsksFor, FillsWith, NamesNew, is_naming};
ghost use Rattle.value_text.specs.Numbers.{magnitude};
ghost use Rattle.command_text.specs.Words.{name_of};

use command_text::read_name;
use mapi_values::Units;
use pst_base::MemOr;
use std::alloc::{AllocError, Global};
use value_text::magnitude;

/// What the words ask for.
#[derive(Clone, Copy, Debug, PartialEq, Eq)]
pub enum Form {
    /// `info FILE`
    Info,
    /// `new FILE NAME`
    New,
    /// `nodes FILE`
    Nodes,
    /// `run FILE`
    Run,
    /// `look FILE`
    Look,
    /// `scratch`
    Scratch,
    /// `decode FILE TO`
    Decode,
    /// `compact FILE TO`
    Compact,
    /// `mend FILE`
    Mend,
    /// `fill FILE SEED COUNT`
    Fill,
}

/// The form of the words, with the name that `new` is given and the numbers that `fill` is; or that they have none.
#[derive(Debug, Drop)]
pub(crate) enum Asked {
    /// A form without more.
    Plain(Form),
    /// `new FILE NAME`, with the name.
    New(Units),
    /// `fill FILE SEED COUNT`, with both numbers.
    Fill { seed: u32, count: u16 },
    /// No form.
    Nothing,
}

/// What a name asks for.
fn read_new(alloc: Global, name: &str) -> Result<Asked, AllocError>
    ensures { IfOk result (NamesNew (name_of name.now)) }
{
    match read_name(alloc, name) {
        Ok(name) => Ok(Asked::New(name)),
        Err(MemOr::Refused(_)) => Ok(Asked::Nothing),
        Err(MemOr::Memory) => Err(AllocError),
    }
}

/// A number in decimal, if it is one of these.
fn number_in(text: &str, low: u64, high: u64) -> Option<u64>
    ensures { result ≡ within low high (magnitude text.now) }
{
    match magnitude(text) {
        Some(number) if low <= number && number <= high => Some(number),
        _ => None,
    }
}

/// What a seed and a count ask for.
fn read_fill(seed: &str, count: &str) -> Asked
    ensures { FillsWith (numbers_of seed.now count.now) result }
{
    let Some(seed) = number_in(seed, 0, u64::from(u32::MAX)) else {
        return Asked::Nothing;
    };
    let Some(count) = number_in(count, 1, 2000) else {
        return Asked::Nothing;
    };
    Asked::Fill {
        seed: seed as u32,
        count: count as u16,
    }
}

/// The form of the words. Only a name wants memory.
pub(crate) fn read_words(alloc: Global, words: &[String]) -> Result<Asked, AllocError>
    ensures form { IfOk result (AsksFor (spelled words.now)) }
    ensures memory { OnErr result (is_naming (spelled words.now) ≡ true) }
{
    match words {
        [word] if word.as_str() == "scratch" => Ok(Asked::Plain(Form::Scratch)),
        [word, _file] if word.as_str() == "info" => Ok(Asked::Plain(Form::Info)),
        [word, _file] if word.as_str() == "nodes" => Ok(Asked::Plain(Form::Nodes)),
        [word, _file] if word.as_str() == "run" => Ok(Asked::Plain(Form::Run)),
        [word, _file] if word.as_str() == "look" => Ok(Asked::Plain(Form::Look)),
        [word, _file] if word.as_str() == "mend" => Ok(Asked::Plain(Form::Mend)),
        [word, _file, name] if word.as_str() == "new" => read_new(alloc, name.as_str()),
        [word, _file, _to] if word.as_str() == "decode" => Ok(Asked::Plain(Form::Decode)),
        [word, _file, _to] if word.as_str() == "compact" => Ok(Asked::Plain(Form::Compact)),
        [word, _file, seed, count] if word.as_str() == "fill" => {
            Ok(read_fill(seed.as_str(), count.as_str()))
        }
        _ => Ok(Asked::Nothing),
    }
}
