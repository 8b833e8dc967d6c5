//! The file of which a copy is made.
use pst_header::Header;

/// The header that counts in a file that was found whole, and the numbers that its next block and page would get.
#[derive(Clone, Copy, Debug, PartialEq, Eq)]
pub struct Source {
    pub header: Header,
    pub next_block: u64,
    pub next_page: u64,
}
