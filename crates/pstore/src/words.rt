//! The words of the command line, and what they name.
use file_world::{Access, FileWorld};
use std::alloc::{AllocError, Global};
use std::io::IsTerminal;
use std::rt::Env;
use std::{env, io};

/// The words of the command line, without the program's name.
pub(crate) fn words(rt: &(impl Env + AllocGlobal)) -> io::Result<Vec<String>> {
    let mut words = Vec::new(rt.alloc());
    for word in env::args(rt)?.skip(1) {
        words.push(word)?;
    }
    Ok(words)
}

/// The word of that number, or an empty one where there is none.
pub(crate) fn word(words: &[String], number: usize) -> &str {
    match words.get(number) {
        Some(word) => word.as_str(),
        None => "",
    }
}

/// What is done with the file that the second word names.
fn access(form: &str) -> Access {
    match form {
        "new" | "run" | "mend" | "fill" => Access::Write,
        _ => Access::Read,
    }
}

/// The file to which that of the second word is copied, where it is.
fn copy(alloc: Global, words: &[String]) -> Result<Option<String>, AllocError> {
    match word(words, 0) {
        "decode" | "compact" => Ok(Some(String::from_str(alloc, word(words, 2))?)),
        _ => Ok(None),
    }
}

/// The world over the files that the words name, which tells a person how far a copy or a large input is.
pub(crate) fn world(
    rt: HostRuntime,
    words: &[String],
) -> Result<FileWorld<HostRuntime>, AllocError> {
    let file = String::from_str(rt.alloc(), word(words, 1))?;
    let copy = copy(rt.alloc(), words)?;
    let mut world = FileWorld::new(rt, file, copy, access(word(words, 0)))?;
    if rt.stderr().is_terminal() {
        match word(words, 0) {
            "fill" => world.show_messages(),
            _ => world.show_copied(),
        }
    }
    Ok(world)
}
