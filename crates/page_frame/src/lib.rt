//! The frame of a page of 512 bytes ([MS-PST] 2.2.2.7.1): 496 bytes of content, and a trailer with the page's kind, a signature, a checksum and an id.
//!
//! Promises: `PageView::read` accepts just the pages that `Page.antt` calls so, names the first fault of any other with the two numbers that it compared, and copies nothing. `seal` gives the only page that reads as a content.
//!
//! Where a page lies in the file, and what its content means, is left to others.
#![tactic(auto)]

mod page;
mod sealing;

pub use page::PageView;
pub use sealing::seal;
