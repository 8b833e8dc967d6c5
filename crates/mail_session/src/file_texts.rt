//! What the program says of a file that isn't opened.
ghost use Rattle.std.specs.Prelude.{◌≡◌, IfOk};
ghost use Rattle.std.specs.String.{string_bytes};
ghost use Rattle.mail_session.specs.Texts.{file_line, form_word, look_line, search_line, store_line, tree_word};

use crate::texts::refusal_line;
use file_mending::file_open::FileRefusal;
use file_mending::store_open::TreeRefusal;
use mail_objects::MessageFault;
use search_look::SearchRefusal;
use std::alloc::{AllocError, Global};
use std::fmt::Write;
use tree_look::{LookRefusal, TreeFault};

/// The line of an opening's refusal.
pub(crate) fn file_line(alloc: Global, refusal: FileRefusal) -> Result<String, AllocError>
    ensures { IfOk result (λ text. string_bytes text ≡ file_line refusal) }
{
    match refusal {
        FileRefusal::Scan(refusal) => refusal_line(alloc, refusal),
        FileRefusal::Tree(refusal) => store_line(alloc, refusal),
        FileRefusal::Ids => {
            let mut text = String::new(alloc);
            writeln!(text, "refused ids")?;
            Ok(text)
        }
    }
}

/// The line of why nodes are no store.
fn store_line(alloc: Global, refusal: TreeRefusal) -> Result<String, AllocError>
    ensures { IfOk result (λ text. string_bytes text ≡ store_line refusal) }
{
    match refusal {
        TreeRefusal::Folders(refusal) => look_line(alloc, refusal),
        TreeRefusal::Searches(refusal) => search_line(alloc, refusal),
    }
}

/// The line of what is wrong with a search of the store's own.
fn search_line(alloc: Global, refusal: SearchRefusal) -> Result<String, AllocError>
    ensures { IfOk result (λ text. string_bytes text ≡ search_line refusal) }
{
    let mut text = String::new(alloc);
    match refusal {
        SearchRefusal::Node { nid, fault } => {
            writeln!(text, "refused node 0x{:x} {}", nid.bits, form_word(fault))?
        }
        SearchRefusal::Criteria { nid } => writeln!(
            text,
            "refused node 0x{:x} criteria",
            nid.bits
        )?,
        SearchRefusal::Stale { folder } => writeln!(text, "refused stale 0x{:x}", folder.bits)?,
    }
    Ok(text)
}

/// The line of what is wrong with folders, tables and messages.
fn look_line(alloc: Global, refusal: LookRefusal) -> Result<String, AllocError>
    ensures { IfOk result (λ text. string_bytes text ≡ look_line refusal) }
{
    let mut text = String::new(alloc);
    match refusal {
        LookRefusal::Node { nid, fault } => {
            writeln!(text, "refused node 0x{:x} {}", nid.bits, form_word(fault))?
        }
        LookRefusal::Tree { nid, fault } => {
            writeln!(text, "refused tree 0x{:x} {}", nid.bits, tree_word(fault))?
        }
        LookRefusal::Names => writeln!(text, "refused node 0x61 names")?,
    }
    Ok(text)
}

fn form_word(fault: MessageFault) -> &'static str
    ensures { result.now ≡ form_word fault }
{
    match fault {
        MessageFault::Heap => "heap",
        MessageFault::Bth => "bth",
        MessageFault::Pc => "pc",
        MessageFault::Tc => "tc",
        MessageFault::Attach => "attach",
    }
}

fn tree_word(fault: TreeFault) -> &'static str
    ensures { result.now ≡ tree_word fault }
{
    match fault {
        TreeFault::Missing => "missing",
        TreeFault::Table => "table",
        TreeFault::Parent => "parent",
        TreeFault::Depth => "depth",
        TreeFault::Cycle => "cycle",
    }
}
