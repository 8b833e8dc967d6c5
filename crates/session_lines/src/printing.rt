//! What is said to a line on transactions or on pins, and to one on views that lists nothing, as text.
ghost use Rattle.std.specs.Prelude.{◌≡◌, ◌++◌, IfOk, OnOk, string_bytes};
ghost use Rattle.session_lines.specs.Texts.{pin_text, transaction_text, view_text};

use crate::line::{PinReply, TransactionReply, ViewReply};
use pst_base::Bytes;
use std::alloc::{AllocError, Global};
use std::fmt::Write;

/// Puts what is said to a line on pins at the end of a text.
#[tactic(auto, unfolding(crate::specs::Texts::pin_text))]
fn push_pin_reply(text: &mut String, reply: PinReply) -> Result<(), AllocError>
    ensures { OnOk result (string_bytes text.new ≡ string_bytes text.old ++ pin_text reply) }
{
    match reply {
        PinReply::Pinned(pin) => writeln!(text, "ok {pin}"),
        PinReply::Unpinned => text.push_str("ok\n"),
        PinReply::NoPin => text.push_str("no pin\n"),
        PinReply::PinsFull => text.push_str("no limit pins\n"),
    }
}

/// The bytes of what is said to a line on pins: one line, with its LF. It fails only where memory runs out.
pub fn pin_reply_text(alloc: Global, reply: PinReply) -> Result<Bytes, AllocError>
    ensures { IfOk result (λ bytes. bytes ≡ pin_text reply) }
{
    let mut text = String::new(alloc);
    push_pin_reply(&mut text, reply)?;
    Ok(Bytes::from_vec(text.into_bytes()))
}

/// Puts what is said to a line on views at the end of a text.
#[tactic(auto, unfolding(crate::specs::Texts::view_text))]
fn push_view_reply(text: &mut String, reply: ViewReply) -> Result<(), AllocError>
    ensures { OnOk result (string_bytes text.new ≡ string_bytes text.old ++ view_text reply) }
{
    match reply {
        ViewReply::Opened(view) => writeln!(text, "ok {view}"),
        ViewReply::Closed => text.push_str("ok\n"),
        ViewReply::NoView => text.push_str("no view\n"),
        ViewReply::NoColumn => text.push_str("no column\n"),
        ViewReply::ViewsFull => text.push_str("no limit views\n"),
    }
}

/// The bytes of what is said to a line on views that lists nothing: one line, with its LF. It fails only where memory runs out.
pub fn view_reply_text(alloc: Global, reply: ViewReply) -> Result<Bytes, AllocError>
    ensures { IfOk result (λ bytes. bytes ≡ view_text reply) }
{
    let mut text = String::new(alloc);
    push_view_reply(&mut text, reply)?;
    Ok(Bytes::from_vec(text.into_bytes()))
}

/// Puts what is said to a line on transactions at the end of a text.
#[tactic(auto, unfolding(crate::specs::Texts::transaction_text))]
fn push_transaction_reply(text: &mut String, reply: TransactionReply) -> Result<(), AllocError>
    ensures { OnOk result (string_bytes text.new ≡ string_bytes text.old ++ transaction_text reply) }
{
    match reply {
        TransactionReply::Done => text.push_str("ok\n"),
        TransactionReply::Full => text.push_str("no limit transaction\n"),
    }
}

/// The bytes of what is said to a line on transactions: one line, with its LF. It fails only where memory runs out.
pub fn transaction_reply_text(alloc: Global, reply: TransactionReply) -> Result<Bytes, AllocError>
    ensures { IfOk result (λ bytes. bytes ≡ transaction_text reply) }
{
    let mut text = String::new(alloc);
    push_transaction_reply(&mut text, reply)?;
    Ok(Bytes::from_vec(text.into_bytes()))
}
