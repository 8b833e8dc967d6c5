//! The numbers of the next block and the next page.
ghost use Rattle.std.specs.Prelude.{◌≡◌};
ghost use Rattle.file_layout.specs.Numbers.{next_block, next_page};

use btree_pages::BlockEntry;
use pst_base::Bref;
use pst_header::Header;

/// The number of the next block: past that of the header and those of all blocks, which rise by 4, and at least 4 ([MS-PST] 2.2.2.2).
pub(crate) fn next_block(header: &Header, blocks: &[BlockEntry]) -> u64
    ensures { result ≡ next_block header.now blocks.now }
{
    let mut next = header.next_block.max(4);
    for entry in blocks {
        next = next.max(entry.at.bid.bits.saturating_add(4));
    }
    next - next % 4
}

/// The number of the next page: past that of the header and those of all pages, which rise by 1.
pub(crate) fn next_page(header: &Header, pages: &[Bref]) -> u64
    ensures { result ≡ next_page header.now pages.now }
{
    let mut next = header.next_page;
    for page in pages {
        next = next.max(page.bid.bits.saturating_add(1));
    }
    next
}
