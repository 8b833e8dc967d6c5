//! One case: a call of the program, and what must come of it.
use crate::left::Cut;
use crate::outcome::{Change, Ending};
use crate::texts::add_text;
use pst_outside::FailPlan;
use std::alloc::Global;
use std::num::NonZeroUsize;
use test_lines::{Trouble, Words};

/// The first words of the lines about a case, but for those of its texts.
const VERBS: [&str; 14] = [
    "run", "takes", "says", "fails", "dead", "turns", "length", "stops", "again", "look", "status",
    "changed", "writes", "has",
];

/// The change of bytes that words tell.
fn change(words: &mut Words) -> Result<Change, Trouble> {
    Ok(Change {
        ib: words.number()?,
        stored: words.number()?,
        computed: words.number()?,
    })
}

fn push<T: Drop>(list: &mut Vec<T>, item: T) -> Result<(), Trouble> {
    Ok(list.push(item)?)
}

/// Has one call of a world fail.
fn fail(fails: &mut FailPlan, device: &str, number: u64) -> Result<(), Trouble> {
    match device {
        "take" => push(&mut fails.takes, number),
        "say" => push(&mut fails.says, number),
        "disk" => push(&mut fails.disks, number),
        _ => Err(Trouble::Spelling),
    }
}

/// One case: a call of the program, and what must come of it.
#[derive(Drop)]
pub struct Case<'a> {
    pub name: &'a str,
    /// The number of its first line.
    pub line: u64,
    /// The words of the command line, where it has been said.
    pub words: Option<&'a str>,
    pub main: Vec<u8>,
    pub side: Vec<u8>,
    /// With what the file of a copy begins.
    pub copy: Vec<u8>,
    /// What it must be afterwards, if not that.
    pub copied: Option<Vec<u8>>,
    pub input: Vec<u8>,
    /// How many bytes a `take` gives at most.
    pub take_at_most: NonZeroUsize,
    /// How many bytes a `say` takes at most.
    pub say_at_most: NonZeroUsize,
    pub fails: FailPlan,
    /// A place of FILE, and what the bytes there are xor from their second reading on.
    pub turn: Option<(u64, Vec<u8>)>,
    /// How many bytes FILE has at least, of which those behind its own are zeros.
    pub main_at_least: u64,
    /// What must be said.
    pub said: Vec<u8>,
    /// Lines that must be among those said; where there is one, others may be said too.
    pub has: Vec<&'a str>,
    /// How the call must end.
    pub ending: Ending,
    /// Whether FILE or FILE.gate may be changed.
    pub writes: bool,
    /// How the case is also cut off, at each call.
    pub cuts: Vec<Cut>,
    /// Whether the words are run once more over what a stop leaves, before that is looked at.
    pub again: bool,
    /// The lines by which what a stop leaves is looked at.
    pub looks: Vec<u8>,
}

impl<'a> Case<'a> {
    /// A case that begins with no file, no input and a world that doesn't fail, and must say nothing.
    pub(crate) fn new(alloc: Global, name: &'a str, line: u64) -> Case<'a> {
        Case {
            name,
            line,
            words: None,
            main: Vec::new(alloc),
            side: Vec::new(alloc),
            copy: Vec::new(alloc),
            copied: None,
            input: Vec::new(alloc),
            take_at_most: NonZeroUsize::MAX,
            say_at_most: NonZeroUsize::MAX,
            fails: FailPlan::none(alloc),
            turn: None,
            main_at_least: 0,
            said: Vec::new(alloc),
            has: Vec::new(alloc),
            ending: Ending {
                status: 0,
                changed: None,
            },
            writes: false,
            cuts: Vec::new(alloc),
            again: false,
            looks: Vec::new(alloc),
        }
    }

    /// Whether lines with this first word are about a case.
    pub(crate) fn knows(verb: &str) -> bool {
        verb.starts_with('>') || verb.starts_with('<') || VERBS.contains(&verb)
    }

    /// Follows a line about the case.
    pub(crate) fn follow(
        &mut self,
        alloc: Global,
        verb: &str,
        words: &mut Words<'a>,
    ) -> Result<(), Trouble> {
        if let Some(sort) = verb.strip_prefix('>') {
            return add_text(alloc, &mut self.input, sort, words);
        }
        if let Some(sort) = verb.strip_prefix('<') {
            return add_text(alloc, &mut self.said, sort, words);
        }
        match verb {
            "look" => add_text(alloc, &mut self.looks, "", words),
            "turns" => self.turn_bytes(alloc, words),
            _ => self.set(verb, words),
        }
    }

    /// Follows a line that sets something by words and numbers.
    fn set(&mut self, verb: &str, words: &mut Words<'a>) -> Result<(), Trouble> {
        match verb {
            "fails" => self.fail(words),
            "changed" => {
                self.ending.changed = Some(change(words)?);
                Ok(())
            }
            "run" => self.run(words.rest()),
            "has" => push(&mut self.has, words.rest()),
            "stops" => push(&mut self.cuts, Cut::Stop),
            "again" => {
                self.again = true;
                Ok(())
            }
            "writes" => {
                self.writes = true;
                Ok(())
            }
            _ => self.count(verb, words),
        }
    }

    /// Has one call fail, or each in turn.
    fn fail(&mut self, words: &mut Words) -> Result<(), Trouble> {
        let device = words.word()?;
        if device == "each" {
            push(&mut self.cuts, Cut::Take)?;
            push(&mut self.cuts, Cut::Say)?;
            return push(&mut self.cuts, Cut::Disk);
        }
        fail(&mut self.fails, device, words.number()?)
    }

    /// Takes the words of the command line, which are said once.
    fn run(&mut self, words: &'a str) -> Result<(), Trouble> {
        if self.words.is_some() {
            return Err(Trouble::Spelling);
        }
        self.words = Some(words);
        Ok(())
    }

    /// Follows a line of one number.
    fn count(&mut self, verb: &str, words: &mut Words) -> Result<(), Trouble> {
        match verb {
            "takes" => self.take_at_most = words.some()?,
            "says" => self.say_at_most = words.some()?,
            "dead" => self.fails.dead_from = Some(words.number()?),
            "length" => self.main_at_least = words.number()?,
            "status" => self.ending.status = words.byte()?,
            _ => return Err(Trouble::Spelling),
        }
        Ok(())
    }

    /// Has bytes turn.
    fn turn_bytes(&mut self, alloc: Global, words: &mut Words) -> Result<(), Trouble> {
        let at = words.number()?;
        let mask = words.bytes(alloc)?;
        self.turn = Some((at, mask));
        Ok(())
    }
}
