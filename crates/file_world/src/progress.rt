//! How far a copy or a large input is, for a person who waits for it.
use std::io::Eprint;
use std::time::{Clock, Duration};

/// How many seconds pass between two sayings at least.
const PAUSE: u64 = 1;

/// The bytes of what is counted by.
const MEGABYTE: u64 = 1_000_000;

/// The first commits of a large input, which make its folder and its search and have the search look in the folder. Each further one makes a message.
const FIRST_COMMITS: u64 = 3;

/// What is counted.
#[derive(Clone, Copy, Debug, PartialEq, Eq)]
enum Counted {
    Nothing,
    /// Bytes that were written to the copy.
    Bytes,
    /// Commits.
    Commits,
}

/// What standard error says while something is counted: nothing at all, or once a second how much it is by then, on one line that is written over.
#[derive(Drop)]
pub(crate) struct Progress {
    counted: Counted,
    /// When the first was counted.
    first: Option<Duration>,
    /// When something was said last, or the first was counted.
    last: Option<Duration>,
    count: u64,
    /// A line was begun that hasn't ended.
    is_begun: bool,
}

impl Progress {
    pub(crate) fn new() -> Progress {
        Progress {
            counted: Counted::Nothing,
            first: None,
            last: None,
            count: 0,
            is_begun: false,
        }
    }

    /// From here on the bytes of a copy are told.
    pub(crate) fn show_copied(&mut self) {
        self.counted = Counted::Bytes;
    }

    /// From here on the messages of a large input are told.
    pub(crate) fn show_messages(&mut self) {
        self.counted = Counted::Commits;
    }

    /// Whether it is time to say something, and how many seconds passed since the first was counted. Without a clock it never is.
    fn due(&mut self, rt: &impl Clock) -> Option<u64> {
        let Ok(now) = rt.monotonic() else {
            return None;
        };
        let (Some(first), Some(last)) = (self.first, self.last) else {
            self.first = Some(now);
            self.last = Some(now);
            return None;
        };
        if now.saturating_sub(last).as_secs() < PAUSE {
            return None;
        }
        self.last = Some(now);
        Some(now.saturating_sub(first).as_secs())
    }

    /// So many more bytes were copied. That standard error takes nothing is no failure.
    pub(crate) fn add_copied(&mut self, rt: &(impl Clock + Eprint), len: usize) {
        if self.counted != Counted::Bytes {
            return;
        }
        self.count = self.count.saturating_add(len as u64);
        if self.due(rt).is_some() {
            let _ = eprint!(rt; "\r{} MB written", self.count / MEGABYTE);
            self.is_begun = true;
        }
    }

    /// One more commit was made.
    pub(crate) fn add_commit(&mut self, rt: &(impl Clock + Eprint)) {
        if self.counted != Counted::Commits {
            return;
        }
        self.count = self.count.saturating_add(1);
        if let Some(seconds) = self.due(rt) {
            let messages = self.count.saturating_sub(FIRST_COMMITS);
            let rate = messages / seconds.max(1);
            let _ = eprint!(rt; "\r{messages} messages, {rate} a second");
            self.is_begun = true;
        }
    }

    /// The copy's bytes are to be made stable: nothing more is counted of it.
    pub(crate) fn end_copy(&mut self, rt: &impl Eprint) {
        if self.counted == Counted::Bytes {
            self.end(rt);
        }
    }

    /// Ends the line that was begun, if one was.
    pub(crate) fn end(&mut self, rt: &impl Eprint) {
        if self.is_begun {
            let _ = eprintln!(rt);
            self.is_begun = false;
        }
    }
}
