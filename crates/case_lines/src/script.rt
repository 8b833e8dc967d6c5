//! What the lines of a case file make: bytes with a name, and one case after another.
use crate::case::Case;
use crate::edits::{add, edit, put};
use crate::outcome::Outcome;
use std::alloc::Global;
use std::fs;
use std::rt::Files;
use test_lines::{Trouble, Words};

/// Bytes with a name, with which the files of later cases can begin.
#[derive(Drop)]
struct Named<'a> {
    name: &'a str,
    bytes: Vec<u8>,
}

/// What the changes of the next lines are made to.
#[derive(Clone, Copy)]
enum Target {
    Nothing,
    Named,
    Main,
    Side,
}

/// What stands between two lines of a case file.
#[derive(Drop)]
pub struct Script<'a> {
    alloc: Global,
    named: Vec<Named<'a>>,
    target: Target,
    case: Option<Case<'a>>,
    left_main: Vec<u8>,
    left_side: Vec<u8>,
    left_copy: Vec<u8>,
}

impl<'a> Script<'a> {
    /// Nothing is named, and no case has begun.
    pub fn new(alloc: Global) -> Script<'a> {
        Script {
            alloc,
            named: Vec::new(alloc),
            target: Target::Nothing,
            case: None,
            left_main: Vec::new(alloc),
            left_side: Vec::new(alloc),
            left_copy: Vec::new(alloc),
        }
    }

    /// Ends the case that has begun, and gives it.
    pub fn end_case(&mut self) -> Option<Case<'a>> {
        self.target = Target::Nothing;
        self.case.take()
    }

    /// Begins a case, by the number of its line.
    pub fn begin_case(&mut self, name: &'a str, line: u64) {
        self.case = Some(Case::new(self.alloc, name, line));
    }

    /// Keeps what a case left in the files.
    pub fn leave(&mut self, outcome: Outcome) {
        self.left_main = outcome.main;
        self.left_side = outcome.side;
        self.left_copy = outcome.copy;
    }

    /// Follows a line that begins or ends no case.
    pub fn follow<R: Files + AllocGlobal>(&mut self, rt: &R, line: &'a str) -> Result<(), Trouble> {
        if line.is_empty() || line.starts_with('#') {
            return Ok(());
        }
        let mut words = Words::new(line);
        self.follow_words(rt, &mut words)?;
        if words.is_empty() {
            Ok(())
        } else {
            Err(Trouble::Spelling)
        }
    }

    fn follow_words<R: Files + AllocGlobal>(
        &mut self,
        rt: &R,
        words: &mut Words<'a>,
    ) -> Result<(), Trouble> {
        match words.word()? {
            "load" => self.load(rt, words),
            verb if Case::knows(verb) => self.follow_case(verb, words),
            verb => self.change(verb, words),
        }
    }

    /// Follows a line about bytes.
    fn change(&mut self, verb: &str, words: &mut Words<'a>) -> Result<(), Trouble> {
        match verb {
            "bytes" => self.name(words),
            "file" => self.begin_main(words),
            "gate" => self.begin_side(words),
            "to" => self.begin_copy(words),
            "copied" => self.want_copy(words),
            "copy" => self.copy(words),
            _ => self.edit(verb, words),
        }
    }

    /// Changes the bytes that lines change.
    fn edit(&mut self, verb: &str, words: &mut Words) -> Result<(), Trouble> {
        let alloc = self.alloc;
        edit(alloc, self.target()?, verb, words)
    }

    /// Follows a line about the case that has begun.
    fn follow_case(&mut self, verb: &str, words: &mut Words<'a>) -> Result<(), Trouble> {
        let alloc = self.alloc;
        self.case()?.follow(alloc, verb, words)
    }

    fn case(&mut self) -> Result<&mut Case<'a>, Trouble> {
        self.case.as_mut().ok_or(Trouble::Spelling)
    }

    /// The bytes that the changes of the next lines are made to.
    fn target(&mut self) -> Result<&mut Vec<u8>, Trouble> {
        match (self.target, self.case.as_mut(), self.named.last_mut()) {
            (Target::Named, _, Some(named)) => Ok(&mut named.bytes),
            (Target::Main, Some(case), _) => Ok(&mut case.main),
            (Target::Side, Some(case), _) => Ok(&mut case.side),
            _ => Err(Trouble::Spelling),
        }
    }

    /// Gives bytes a name that isn't taken: none, or those of another name.
    fn name(&mut self, words: &mut Words<'a>) -> Result<(), Trouble> {
        let name = words.word()?;
        if name == "left" || name == "copied" || self.find(name).is_ok() {
            return Err(Trouble::Name);
        }
        let bytes = self.beginning(words, &self.left_main)?;
        self.target = Target::Named;
        Ok(self.named.push(Named { name, bytes })?)
    }

    /// The bytes of this name.
    fn find(&self, name: &str) -> Result<&[u8], Trouble> {
        match self.named.iter().find(|named| named.name == name) {
            Some(named) => Ok(named.bytes.as_slice()),
            None => Err(Trouble::Name),
        }
    }

    /// A copy of the bytes with which a file begins by a line.
    fn beginning(&self, words: &mut Words, left: &Vec<u8>) -> Result<Vec<u8>, Trouble> {
        if words.is_empty() {
            return Ok(Vec::new(self.alloc));
        }
        let bytes = match words.word()? {
            "left" => left.as_slice(),
            "copied" => self.left_copy.as_slice(),
            name => self.find(name)?,
        };
        Ok(Vec::from_slice(self.alloc, bytes)?)
    }

    fn begin_main(&mut self, words: &mut Words) -> Result<(), Trouble> {
        let bytes = self.beginning(words, &self.left_main)?;
        self.case()?.main = bytes;
        self.target = Target::Main;
        Ok(())
    }

    fn begin_side(&mut self, words: &mut Words) -> Result<(), Trouble> {
        let bytes = self.beginning(words, &self.left_side)?;
        self.case()?.side = bytes;
        self.target = Target::Side;
        Ok(())
    }

    fn begin_copy(&mut self, words: &mut Words<'a>) -> Result<(), Trouble> {
        let bytes = self.named_copy(words)?;
        self.case()?.copy = bytes;
        Ok(())
    }

    fn want_copy(&mut self, words: &mut Words<'a>) -> Result<(), Trouble> {
        let bytes = self.named_copy(words)?;
        self.case()?.copied = Some(bytes);
        Ok(())
    }

    /// A copy of the bytes of the name that is the next word.
    fn named_copy(&self, words: &mut Words) -> Result<Vec<u8>, Trouble> {
        Ok(Vec::from_slice(self.alloc, self.find(words.word()?)?)?)
    }

    /// Adds the bytes of a file that lies beside the case files.
    fn load<R: Files + AllocGlobal>(&mut self, rt: &R, words: &mut Words) -> Result<(), Trouble> {
        match fs::read(rt, words.word()?) {
            Ok(bytes) => self.add(bytes.as_slice()),
            Err(_) => Err(Trouble::Name),
        }
    }

    /// Adds bytes to those that lines change.
    fn add(&mut self, bytes: &[u8]) -> Result<(), Trouble> {
        add(self.target()?, bytes)
    }

    /// Puts a part of the bytes of a name at a place.
    fn copy(&mut self, words: &mut Words) -> Result<(), Trouble> {
        let part = self.part(words)?;
        self.put(words, part.as_slice())
    }

    /// A copy of the part of the bytes of a name that words tell.
    fn part(&self, words: &mut Words) -> Result<Vec<u8>, Trouble> {
        let name = words.word()?;
        let at = words.size()?;
        let len = words.size()?;
        self.cut_out(name, at, len)
    }

    /// A copy of so many bytes of a name from a place on.
    fn cut_out(&self, name: &str, at: usize, len: usize) -> Result<Vec<u8>, Trouble> {
        match self.find(name)?.get(at..at.saturating_add(len)) {
            Some(part) => Ok(Vec::from_slice(self.alloc, part)?),
            None => Err(Trouble::Place),
        }
    }

    /// Puts bytes at the place of the next word.
    fn put(&mut self, words: &mut Words, bytes: &[u8]) -> Result<(), Trouble> {
        let at = words.size()?;
        put(self.target()?, at, bytes)
    }
}
