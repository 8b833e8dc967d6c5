//! What came of a call, and where it isn't what a case says.
use crate::case::Case;

/// The bytes that changed, as status 9 tells them.
#[derive(Clone, Copy, Debug, PartialEq, Eq)]
pub struct Change {
    pub ib: u64,
    pub stored: u64,
    pub computed: u64,
}

/// How a call ended.
#[derive(Clone, Copy, Debug, PartialEq, Eq)]
pub struct Ending {
    pub status: u8,
    pub changed: Option<Change>,
}

/// What came of a call.
#[derive(Drop)]
pub struct Outcome {
    pub ending: Ending,
    pub said: Vec<u8>,
    pub main: Vec<u8>,
    pub side: Vec<u8>,
    pub copy: Vec<u8>,
}

/// The first of the lines that must be among those said and isn't.
pub fn first_missing<'a>(case: &Case<'a>, outcome: &Outcome) -> Option<&'a str> {
    for line in case.has.iter() {
        let mut said = outcome.said.as_slice().split(|byte| *byte == b'\n');
        if !said.any(|other| other == line.as_bytes()) {
            return Some(*line);
        }
    }
    None
}

/// The first line in which two texts differ: its number from 1 on, and the line in each.
#[derive(Clone, Copy)]
pub struct LineDifference<'a> {
    pub number: u64,
    pub wanted: &'a [u8],
    pub got: &'a [u8],
}

/// Where two texts that aren't the same differ first.
pub fn first_difference<'a>(wanted: &'a [u8], got: &'a [u8]) -> LineDifference<'a> {
    let mut others = got.split(|byte| *byte == b'\n');
    let mut number = 1u64;
    for line in wanted.split(|byte| *byte == b'\n') {
        let other = others.next().unwrap_or(&[]);
        if other != line {
            return LineDifference {
                number,
                wanted: line,
                got: other,
            };
        }
        number = number.saturating_add(1);
    }
    LineDifference {
        number,
        wanted: &[],
        got: others.next().unwrap_or(&[]),
    }
}
