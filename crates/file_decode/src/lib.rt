//! A file whose blocks are encoded, written as one whose blocks aren't.
//!
//! Promises: `decode_file` writes into Copy just the bytes that `decoded_file` says of the file that counts, makes them stable, and answers how many data blocks it has (`IsDecoded`); that copy lays the nodes of the file with each block of data decoded (`lays_decoded`). What it refuses is what a scan of the file would refuse if its header said that nothing is encoded (`IsUnread`), or that Copy has bytes. Main and Side are at every moment as they were (`KeepsSource`).
//!
//! Leaves to others: the two encodings (`block_encoding`), what is wrong with a file (`file_layout`, `file_scan`), and what a stop leaves of Copy.
#![tactic(auto)]

mod copying;
mod decoding;
mod law;
mod source;
mod stops;
mod writing;

pub use law::lays_decoded;
pub use stops::DecodeStop;
pub use writing::decode_file;
