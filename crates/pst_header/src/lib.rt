//! The header of a Unicode .pst file ([MS-PST] 2.2.2.6): its 564 bytes, read and written.
//!
//! `read` answers the header or the first refusal, just as `Format` says of the bytes. `write` gives the one list of bytes that reads as the header. Both keep each byte that no field has, in `Header::kept`. `new_header` is that of a new file.
//!
//! What the fields point to, and whether it lies in the file, is left to the callers.
#![tactic(auto)]

mod codec;
mod fields;
mod header;
mod layout;

pub use codec::{read, write};
pub use fields::new_header;
pub use header::{Header, HeaderRefusal};
