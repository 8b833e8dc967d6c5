//! Messages in attachments of messages ([MS-PST] 2.4.6.2.3): which attachment holds which message, and laying one out for an attachment.
//!
//! Promises: `inner` gives the message that an attachment holds, and `None` exactly where it holds none (`IsInner`); `lay` makes a subnode that is the message (`IsLaid`), so that a new attachment with it holds the message (`holds_what_was_laid`), and an attachment in which it comes in place of another message holds this one (`holds_what_was_put`); `nests_deep` tells whether a message would have a subnode below level 8 once it is embedded.
//!
//! Leaves to others: which message gets which attachment, and the commands.
#![tactic(auto)]

mod law;
mod laying;
mod nesting;
mod reading;

pub use law::{holds_what_was_laid, holds_what_was_put};
pub use laying::lay;
pub use nesting::nests_deep;
pub use reading::inner;
