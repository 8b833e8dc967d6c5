//! The command and the check over a desk.
pub use crate::adding::name_property;
pub use crate::reading::check_named;
