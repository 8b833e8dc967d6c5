//! What a store knows of an object.
use mapi_values::Units;

/// What is known of an object of a store.
#[derive(Debug, Drop)]
pub enum Note {
    /// Of a message: whether it is unread.
    Unread(bool),
    /// Of properties, as those of a folder: the name among them, its case folded.
    Named(Units),
}
