//! The commands over a desk.
pub use crate::appending::append;
pub use crate::attachments::{attach, detach, fetch};
pub use crate::embedding::set_embedded;
pub use crate::recipients::{add_recipient, remove_recipient};
