//! What the program says, as bytes.
ghost use Rattle.std.specs.Prelude.{◌≡◌, ◌++◌, IfOk, OnOk};
ghost use Rattle.std.specs.String.{string_bytes};
ghost use Rattle.mail_session.specs.Texts.{info_text, gate_text, refusal_line, header_line, crc_text, page_word, block_word, node_word, node_line, nodes_text};

use block_frame::BlockFault;
use file_layout::{BlockRefusal, NodeFault, OpenRefusal, PageRefusal};
use file_scan::NodeLine;
use pst_base::PageFault;
use pst_header::{Header, HeaderRefusal};
use std::alloc::{AllocError, Global};
use std::fmt::Write;

/// The seven lines of `info`.
pub(crate) fn info_text(
    alloc: Global,
    header: &Header,
    gate_open: bool,
) -> Result<String, AllocError>
    ensures { IfOk result (λ text. string_bytes text ≡ info_text header.now gate_open) }
{
    let mut text = String::new(alloc);
    writeln!(text, "version {}", header.wver)?;
    writeln!(text, "crypt {}", header.crypt)?;
    writeln!(text, "eof {}", header.eof)?;
    writeln!(text, "next block 0x{:x}", header.next_block)?;
    writeln!(text, "next page 0x{:x}", header.next_page)?;
    writeln!(text, "maps {}", header.maps)?;
    writeln!(text, "gate {}", gate_word(gate_open))?;
    Ok(text)
}

fn gate_word(gate_open: bool) -> &'static str
    ensures { result.now ≡ gate_text gate_open }
{
    if gate_open { "open" } else { "closed" }
}

/// The line of a refusal.
pub(crate) fn refusal_line(alloc: Global, refusal: OpenRefusal) -> Result<String, AllocError>
    ensures { IfOk result (λ text. string_bytes text ≡ refusal_line refusal) }
{
    let mut text = String::new(alloc);
    match refusal {
        OpenRefusal::Empty => writeln!(text, "refused empty")?,
        OpenRefusal::Gate { len } => writeln!(text, "refused gate {len}")?,
        OpenRefusal::Short { len } => writeln!(text, "refused short {len}")?,
        OpenRefusal::Header(refusal) => return header_line(alloc, refusal),
        OpenRefusal::Truncated { len, eof } => writeln!(text, "refused truncated {len} {eof}")?,
        OpenRefusal::Large { eof } => writeln!(text, "refused large {eof}")?,
        OpenRefusal::Page { ib, fault } => {
            writeln!(text, "refused page 0x{ib:x} {}", page_word(fault))?
        }
        OpenRefusal::Block { ib, fault } => {
            writeln!(text, "refused block 0x{ib:x} {}", block_word(fault))?
        }
        OpenRefusal::Missing { bid } => writeln!(text, "refused missing 0x{:x}", bid.bits)?,
        OpenRefusal::Overlap { ib } => writeln!(text, "refused overlap 0x{ib:x}")?,
        OpenRefusal::Node { nid, fault } => {
            writeln!(text, "refused node 0x{:x} {}", nid.bits, node_word(fault))?
        }
    }
    Ok(text)
}

fn header_line(alloc: Global, refusal: HeaderRefusal) -> Result<String, AllocError>
    ensures { IfOk result (λ text. string_bytes text ≡ header_line refusal) }
{
    let mut text = String::new(alloc);
    match refusal {
        HeaderRefusal::NotPst => writeln!(text, "refused not-pst")?,
        HeaderRefusal::Version { found } => writeln!(text, "refused version {found}")?,
        HeaderRefusal::Crc {
            full,
            stored,
            computed,
        } => writeln!(
            text,
            "refused crc {} {stored:08x} {computed:08x}",
            crc_word(full)
        )?,
        HeaderRefusal::Encoded { method } => writeln!(text, "refused encoded {method}")?,
    }
    Ok(text)
}

fn crc_word(full: bool) -> &'static str
    ensures { result.now ≡ crc_text full }
{
    if full { "full" } else { "partial" }
}

fn page_word(fault: PageRefusal) -> &'static str
    ensures { result.now ≡ page_word fault }
{
    match fault {
        PageRefusal::Outside => "outside",
        PageRefusal::Faulty(PageFault::Kind { .. }) => "kind",
        PageRefusal::Faulty(PageFault::Crc { .. }) => "crc",
        PageRefusal::Faulty(PageFault::Sig { .. }) => "sig",
        PageRefusal::Faulty(PageFault::Bid { .. }) => "bid",
        PageRefusal::Faulty(PageFault::Count) => "count",
        PageRefusal::Faulty(PageFault::Level) => "level",
        PageRefusal::Faulty(PageFault::Key) => "key",
    }
}

fn block_word(fault: BlockRefusal) -> &'static str
    ensures { result.now ≡ block_word fault }
{
    match fault {
        BlockRefusal::Outside => "outside",
        BlockRefusal::Length | BlockRefusal::Faulty(BlockFault::Length { .. }) => "length",
        BlockRefusal::Faulty(BlockFault::Crc { .. }) => "crc",
        BlockRefusal::Faulty(BlockFault::Sig { .. }) => "sig",
        BlockRefusal::Faulty(BlockFault::Bid { .. }) => "bid",
        BlockRefusal::Form => "form",
    }
}

fn node_word(fault: NodeFault) -> &'static str
    ensures { result.now ≡ node_word fault }
{
    match fault {
        NodeFault::Deep => "deep",
        NodeFault::Many => "many",
        NodeFault::Long => "long",
    }
}

/// The line of each node, and how many they are.
pub(crate) fn nodes_text(alloc: Global, nodes: &[NodeLine]) -> Result<String, AllocError>
    ensures { IfOk result (λ text. string_bytes text ≡ nodes_text nodes.now) }
{
    let mut text = String::new(alloc);
    for node in nodes {
        push_node(&mut text, *node)?;
    }
    writeln!(text, "ok {}", nodes.len())?;
    Ok(text)
}

fn push_node(text: &mut String, node: NodeLine) -> Result<(), AllocError>
    ensures { OnOk result (string_bytes text.new ≡ string_bytes text.old ++ node_line node) }
{
    writeln!(
        text,
        "- 0x{:x} 0x{:x} {} {}",
        node.nid.bits, node.parent.bits, node.bytes, node.subs
    )?;
    Ok(())
}
