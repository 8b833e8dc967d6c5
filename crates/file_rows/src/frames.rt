//! Pages and blocks with their trailers.
use block_frame::{BlockFault, BlockView, disk_size};
use page_frame::PageView;
use pst_base::{Bid, Bref, PageFault};
use std::alloc::Global;
use test_lines::{Trouble, Words, push_bytes};

/// The id and the place of the next two words.
pub fn bref(words: &mut Words) -> Result<Bref, Trouble> {
    Ok(Bref {
        bid: Bid { bits: words.hex()? },
        ib: words.hex()?,
    })
}

/// The next word as so many bytes.
pub fn array<const N: usize>(alloc: Global, words: &mut Words) -> Result<[u8; N], Trouble> {
    let bytes = words.bytes(alloc)?;
    let mut array = [0u8; N];
    if bytes.len() != N {
        return Err(Trouble::Spelling);
    }
    array.copy_from_slice(bytes.as_slice());
    Ok(array)
}

/// Bytes as a word spells them.
pub fn bytes_text(alloc: Global, bytes: &[u8]) -> Result<String, Trouble> {
    let mut text = String::new(alloc);
    push_bytes(&mut text, bytes)?;
    Ok(text)
}

pub fn seal_page(alloc: Global, words: &mut Words) -> Result<String, Trouble> {
    let kind = words.byte()?;
    let at = bref(words)?;
    let body = array::<496>(alloc, words)?;
    bytes_text(alloc, &page_frame::seal(&body, kind, at))
}

pub fn seal_block(alloc: Global, words: &mut Words) -> Result<String, Trouble> {
    let at = bref(words)?;
    let bytes = words.bytes(alloc)?;
    sealed_text(alloc, bytes.as_slice(), at)
}

/// A block with its trailer.
fn sealed_text(alloc: Global, bytes: &[u8], at: Bref) -> Result<String, Trouble> {
    if bytes.len() > 8176 {
        return Err(Trouble::Spelling);
    }
    let block = block_frame::seal(alloc, bytes, at)?;
    bytes_text(alloc, block.as_slice())
}

/// What is wrong, with what is stored and what it should be.
fn fault_text(alloc: Global, word: &str, stored: u64, computed: u64) -> Result<String, Trouble> {
    Ok(format!(in alloc; "{word} {stored:x} {computed:x}")?)
}

fn page_fault(alloc: Global, fault: PageFault) -> Result<String, Trouble> {
    match fault {
        PageFault::Kind { stored, computed } => fault_text(alloc, "kind", stored, computed),
        PageFault::Crc { stored, computed } => fault_text(alloc, "crc", stored, computed),
        PageFault::Sig { stored, computed } => fault_text(alloc, "sig", stored, computed),
        PageFault::Bid { stored, computed } => fault_text(alloc, "bid", stored, computed),
        PageFault::Count | PageFault::Level | PageFault::Key => Err(Trouble::Place),
    }
}

/// Whether a page is whole, or what is wrong with it.
pub fn read_page(alloc: Global, words: &mut Words) -> Result<String, Trouble> {
    let kind = words.byte()?;
    let at = bref(words)?;
    let page = array::<512>(alloc, words)?;
    match PageView::read(&page, kind, at) {
        Ok(_) => Ok(String::from_str(alloc, "whole")?),
        Err(fault) => page_fault(alloc, fault),
    }
}

fn block_fault(alloc: Global, fault: BlockFault) -> Result<String, Trouble> {
    match fault {
        BlockFault::Length { stored, computed } => fault_text(alloc, "length", stored, computed),
        BlockFault::Crc { stored, computed } => fault_text(alloc, "crc", stored, computed),
        BlockFault::Sig { stored, computed } => fault_text(alloc, "sig", stored, computed),
        BlockFault::Bid { stored, computed } => fault_text(alloc, "bid", stored, computed),
    }
}

/// Whether a block of so many bytes of data is whole, or what is wrong with it.
fn block_text(alloc: Global, cb: u16, at: Bref, block: &[u8]) -> Result<String, Trouble> {
    if cb > 8176 || block.len() != disk_size(cb) {
        return Err(Trouble::Spelling);
    }
    match BlockView::read(block, cb, at) {
        Ok(_) => Ok(String::from_str(alloc, "whole")?),
        Err(fault) => block_fault(alloc, fault),
    }
}

/// Whether a block is whole, or what is wrong with it.
pub fn read_block(alloc: Global, words: &mut Words) -> Result<String, Trouble> {
    let cb = u16::try_from(words.id()?).ok().ok_or(Trouble::Spelling)?;
    let at = bref(words)?;
    let block = words.bytes(alloc)?;
    block_text(alloc, cb, at, block.as_slice())
}
