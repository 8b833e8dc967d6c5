//! `file_rows`: tests of frames, maps and trees, and of the keeper of a file, as data. It reads files of rows, whose names are the words of the command line, asks each row, prints where the answer isn't the one that the row says, and at last how many rows there were and how many differences. `data/README.md` says what rows can ask.
#![tactic(auto)]

mod edits;
mod frames;
mod headers;
mod keepers;
mod lists;
mod nodes;
mod pages;
mod pins;
mod references;
mod slots;
mod steps;
mod subnodes;
mod thinning;

use std::alloc::Global;
use std::io;
use std::process::ExitCode;
use test_lines::{Answerer, Trouble, Words, play_all};

/// The crates of frames and maps, of trees, and of keepers.
struct Parts;

/// The answer to a row on data blocks, on subnodes, on references to blocks, or on a keeper.
fn node_answer(alloc: Global, kind: &str, words: &mut Words) -> Result<String, Trouble> {
    match kind {
        "data" => lists::ask_data(alloc, words),
        "data-kept" => lists::ask_kept(alloc),
        "subnodes" => subnodes::ask_subnodes(alloc, words),
        "subnodes-kept" => subnodes::ask_kept(alloc),
        "references" => references::answer(alloc, words),
        "file" => keepers::ask_file(alloc, words),
        "memory" => keepers::ask_memory(alloc, words),
        _ => Err(Trouble::Spelling),
    }
}

/// The answer to a row on a page of a tree or on edits of it, or to one of those on nodes.
fn tree_answer(alloc: Global, kind: &str, words: &mut Words) -> Result<String, Trouble> {
    match kind {
        "leaf" => pages::ask_leaf(alloc, words),
        "inner" => pages::ask_inner(alloc, words),
        "find" => pages::ask_find(alloc, words),
        "change" => edits::ask_change(alloc, words),
        "edit" => edits::ask_edit(alloc, words),
        "look" => edits::ask_look(alloc, words),
        "thin" => thinning::ask_thin(alloc, words),
        "narrow" => thinning::ask_narrow(alloc, words),
        _ => node_answer(alloc, kind, words),
    }
}

impl Answerer for Parts {
    fn answer(&self, alloc: Global, kind: &str, words: &mut Words) -> Result<String, Trouble> {
        match kind {
            "header" => headers::answer(alloc, words),
            "seal-page" => frames::seal_page(alloc, words),
            "seal-block" => frames::seal_block(alloc, words),
            "read-page" => frames::read_page(alloc, words),
            "read-block" => frames::read_block(alloc, words),
            "place" => slots::ask_place(alloc, words),
            "lend" => slots::ask_lend(alloc, words),
            "map" => slots::ask_map(alloc, words),
            _ => tree_answer(alloc, kind, words),
        }
    }
}

fn main(rt: HostRuntime) -> io::Result<ExitCode> {
    let tally = play_all(&rt, &Parts)?;
    Ok(ExitCode::from(u8::from(tally.differ > 0)))
}
