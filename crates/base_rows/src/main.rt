//! `base_rows`: tests of the base, of lines and values, of heaps, contexts and messages, of names and of restrictions as data. It reads files of rows, whose names are the words of the command line, asks each row, prints where the answer isn't the one that the row says, and at last how many rows there were and how many differences. `data/README.md` says what rows can ask.
//!
//! Each question adds its answer to a text that `Base` owns, so that little is owned where a question may fail: what is owned there makes proofs dear.
#![tactic(auto)]

mod contexts;
mod crashes;
mod heaps;
mod limits;
mod making;
mod matrices;
mod names;
mod nodes;
mod numbers;
mod objects;
mod replies;
mod restrictions;
mod searches;
mod text;
mod trees;
mod values;

use std::alloc::Global;
use std::io;
use std::process::ExitCode;
use test_lines::{Answerer, Trouble, Words, play_all};

/// The crates of the base, of heaps and contexts, and of the objects that no store is needed for.
struct Base;

/// Adds the answer to a row on searches, on replies or on crashes.
fn push_search_answer(
    alloc: Global,
    text: &mut String,
    kind: &str,
    words: &mut Words,
) -> Result<(), Trouble> {
    match kind {
        "flags" => searches::ask_flags(text, words),
        "criteria" => searches::ask_criteria(alloc, text, words),
        "change" => searches::ask_change(alloc, text, words),
        "scope" => searches::ask_scope(alloc, text, words),
        "reply" => replies::ask_reply(alloc, text, words),
        "crash" => crashes::ask_crash(alloc, text, words),
        _ => Err(Trouble::Spelling),
    }
}

/// Adds the answer to a row on heaps, contexts, messages or restrictions, or to one of those on searches.
fn push_object_answer(
    alloc: Global,
    text: &mut String,
    kind: &str,
    words: &mut Words,
) -> Result<(), Trouble> {
    match kind {
        "ids" => making::ask_ids(alloc, text, words),
        "maps" => heaps::ask_maps(alloc, text, words),
        "root" | "items" | "lengths" | "tree" | "find" => heaps::answer(alloc, text, kind, words),
        "values" | "cells" | "message" => contexts::answer(alloc, text, kind, words),
        "matrix" => matrices::ask_matrix(alloc, text, words),
        "restriction" => restrictions::ask_restriction(alloc, text, words),
        "holds" => restrictions::ask_holds(alloc, text, words),
        "touch" => restrictions::ask_touch(alloc, text, words),
        _ => push_search_answer(alloc, text, kind, words),
    }
}

/// Adds the answer to a row on layouts, limits or names, or to one of those on objects.
fn push_layout_answer(
    alloc: Global,
    text: &mut String,
    kind: &str,
    words: &mut Words,
) -> Result<(), Trouble> {
    match kind {
        "props" => objects::ask_props(alloc, text, words),
        "layout" => objects::ask_layout(alloc, text, words),
        "mirror" => objects::ask_mirror(alloc, text, words),
        "size" => objects::ask_size(alloc, text, words),
        "props-fit" => limits::ask_props_fit(alloc, text, words),
        "message-fits" => limits::ask_message_fits(alloc, text, words),
        "names" => names::ask_names(alloc, text, words),
        _ => push_object_answer(alloc, text, kind, words),
    }
}

/// Adds the answer to a row.
fn push_answer(
    alloc: Global,
    text: &mut String,
    kind: &str,
    words: &mut Words,
) -> Result<(), Trouble> {
    match kind {
        "crc" => numbers::ask_crc(alloc, text, words),
        "sig" => numbers::ask_sig(text, words),
        "nid" => numbers::ask_nid(text, words),
        "kind" => numbers::ask_kind(text, words),
        "bid" => numbers::ask_bid(text, words),
        "fold" => text::ask_fold(alloc, text, words, false),
        "strip" => text::ask_fold(alloc, text, words, true),
        "value" => text::ask_value(alloc, text, words),
        "print" => text::ask_print(alloc, text, words),
        _ => push_layout_answer(alloc, text, kind, words),
    }
}

impl Answerer for Base {
    fn answer(&self, alloc: Global, kind: &str, words: &mut Words) -> Result<String, Trouble> {
        let mut text = String::new(alloc);
        push_answer(alloc, &mut text, kind, words)?;
        Ok(text)
    }
}

fn main(rt: HostRuntime) -> io::Result<ExitCode> {
    let tally = play_all(&rt, &Base)?;
    Ok(ExitCode::from(u8::from(tally.differ > 0)))
}
