//! What a line on embedded messages asks for.
use mapi_values::{Tag, Units, Value};
use pst_base::Nid;

/// What a line on the message in an attachment asks for, one variant for each form of line, with its arguments in their order.
#[derive(Debug, Drop)]
pub enum EmbeddedCommand {
    /// `embed M X NAME`: the message M gets an attachment that holds a copy of the message X.
    Embed {
        message: Nid,
        source: Nid,
        name: Units,
    },
    /// `eprops M N`: the properties, recipients and attachments of the message in the attachment N of the message M.
    List {
        message: Nid,
        attachment: Nid,
    },
    /// `eget M N TAG`: its value of that id and kind.
    Get {
        message: Nid,
        attachment: Nid,
        tag: Tag,
    },
    /// `eset M N TAG VALUE`: it gets the value, in place of one with its id.
    Set {
        message: Nid,
        attachment: Nid,
        value: Value,
    },
    /// `eunset M N TAG`: its property of that id and kind goes.
    Unset {
        message: Nid,
        attachment: Nid,
        tag: Tag,
    },
}
