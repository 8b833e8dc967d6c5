//! The commands over a desk.
pub use crate::changes::remake_message;
pub use crate::copying::copy_message;
pub use crate::find::message_in;
pub use crate::making::new_message;
pub use crate::moving::move_message;
pub use crate::reading::{get_value, list_details};
pub use crate::removing::remove_message;
pub use crate::values::{set_value, unset_value};
