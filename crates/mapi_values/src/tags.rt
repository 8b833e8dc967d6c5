//! The kinds of values ([MS-OXCDATA] 2.11.1) and the tags of properties ([MS-OXPROPS] 2), by the names of the standard. An id that code matches on has a name of its own.
use crate::value::Tag;

/// A kind that is left open.
pub const PTYP_UNSPECIFIED: u16 = 0x0000;
/// No value.
pub const PTYP_NULL: u16 = 0x0001;
/// A number of 16 bits.
pub const PTYP_INTEGER_16: u16 = 0x0002;
/// A number of 32 bits.
pub const PTYP_INTEGER_32: u16 = 0x0003;
/// A floating number of 32 bits.
pub const PTYP_FLOATING_32: u16 = 0x0004;
/// A floating number of 64 bits.
pub const PTYP_FLOATING_64: u16 = 0x0005;
/// A number of ten-thousandths, of 64 bits.
pub const PTYP_CURRENCY: u16 = 0x0006;
/// A time as a floating number of days, of 64 bits.
pub const PTYP_FLOATING_TIME: u16 = 0x0007;
/// A status code of 32 bits.
pub const PTYP_ERROR_CODE: u16 = 0x000A;
/// A truth value, of one byte.
pub const PTYP_BOOLEAN: u16 = 0x000B;
/// An object, or the reference to a subnode that holds one.
pub const PTYP_OBJECT: u16 = 0x000D;
/// A number of 64 bits.
pub const PTYP_INTEGER_64: u16 = 0x0014;
/// Text as UTF-16.
pub const PTYP_STRING: u16 = 0x001F;
/// A number of 100 nanoseconds since 1601, of 64 bits.
pub const PTYP_TIME: u16 = 0x0040;
/// A GUID, of 16 bytes.
pub const PTYP_GUID: u16 = 0x0048;
/// Bytes of any number.
pub const PTYP_BINARY: u16 = 0x0102;

/// The first id of properties that are known by a name alone.
pub const FIRST_NAMED_ID: u16 = 0x8000;
/// The id of [`PID_TAG_MESSAGE_FLAGS`].
pub const ID_MESSAGE_FLAGS: u16 = 0x0E07;
/// The id of [`PID_TAG_MESSAGE_SIZE`].
pub const ID_MESSAGE_SIZE: u16 = 0x0E08;
/// The id of [`PID_TAG_MESSAGE_RECIPIENTS`].
pub const ID_MESSAGE_RECIPIENTS: u16 = 0x0E12;
/// The id of [`PID_TAG_MESSAGE_ATTACHMENTS`].
pub const ID_MESSAGE_ATTACHMENTS: u16 = 0x0E13;
/// The id of [`PID_TAG_SEARCH_KEY`].
pub const ID_SEARCH_KEY: u16 = 0x300B;
/// The id of [`PID_TAG_LTP_ROW_ID`].
pub const ID_LTP_ROW_ID: u16 = 0x67F2;
/// The id of [`PID_TAG_LTP_ROW_VER`].
pub const ID_LTP_ROW_VER: u16 = 0x67F3;

/// How many buckets the names of properties have.
pub const PID_TAG_NAMEID_BUCKET_COUNT: Tag = Tag {
    id: 0x0001,
    kind: PTYP_INTEGER_32,
};

/// The GUIDs of the names of properties.
pub const PID_TAG_NAMEID_STREAM_GUID: Tag = Tag {
    id: 0x0002,
    kind: PTYP_BINARY,
};

/// The entries of the names of properties.
pub const PID_TAG_NAMEID_STREAM_ENTRY: Tag = Tag {
    id: 0x0003,
    kind: PTYP_BINARY,
};

/// The strings of the names of properties.
pub const PID_TAG_NAMEID_STREAM_STRING: Tag = Tag {
    id: 0x0004,
    kind: PTYP_BINARY,
};

/// The class of a message.
pub const PID_TAG_MESSAGE_CLASS: Tag = Tag {
    id: 0x001A,
    kind: PTYP_STRING,
};

/// The subject of a message.
pub const PID_TAG_SUBJECT: Tag = Tag {
    id: 0x0037,
    kind: PTYP_STRING,
};

/// When a message was sent.
pub const PID_TAG_CLIENT_SUBMIT_TIME: Tag = Tag {
    id: 0x0039,
    kind: PTYP_TIME,
};

/// What kind of recipient a row of the recipients is.
pub const PID_TAG_RECIPIENT_TYPE: Tag = Tag {
    id: 0x0C15,
    kind: PTYP_INTEGER_32,
};

/// When a message was delivered.
pub const PID_TAG_MESSAGE_DELIVERY_TIME: Tag = Tag {
    id: 0x0E06,
    kind: PTYP_TIME,
};

/// The flags of a message: that it is read, that it has attachments.
pub const PID_TAG_MESSAGE_FLAGS: Tag = Tag {
    id: ID_MESSAGE_FLAGS,
    kind: PTYP_INTEGER_32,
};

/// The size that a message tells of itself, in bytes.
pub const PID_TAG_MESSAGE_SIZE: Tag = Tag {
    id: ID_MESSAGE_SIZE,
    kind: PTYP_INTEGER_32,
};

/// The recipients of a message.
pub const PID_TAG_MESSAGE_RECIPIENTS: Tag = Tag {
    id: ID_MESSAGE_RECIPIENTS,
    kind: PTYP_OBJECT,
};

/// The attachments of a message.
pub const PID_TAG_MESSAGE_ATTACHMENTS: Tag = Tag {
    id: ID_MESSAGE_ATTACHMENTS,
    kind: PTYP_OBJECT,
};

/// The size of an attachment, in bytes.
pub const PID_TAG_ATTACH_SIZE: Tag = Tag {
    id: 0x0E20,
    kind: PTYP_INTEGER_32,
};

/// What tells a store from all others.
pub const PID_TAG_RECORD_KEY: Tag = Tag {
    id: 0x0FF9,
    kind: PTYP_BINARY,
};

/// The text of a message.
pub const PID_TAG_BODY: Tag = Tag {
    id: 0x1000,
    kind: PTYP_STRING,
};

/// The name of a folder, a store or a recipient.
pub const PID_TAG_DISPLAY_NAME: Tag = Tag {
    id: 0x3001,
    kind: PTYP_STRING,
};

/// The type of a recipient's address.
pub const PID_TAG_ADDRESS_TYPE: Tag = Tag {
    id: 0x3002,
    kind: PTYP_STRING,
};

/// The address of a recipient.
pub const PID_TAG_EMAIL_ADDRESS: Tag = Tag {
    id: 0x3003,
    kind: PTYP_STRING,
};

/// When an object was made.
pub const PID_TAG_CREATION_TIME: Tag = Tag {
    id: 0x3007,
    kind: PTYP_TIME,
};

/// When an object was changed last.
pub const PID_TAG_LAST_MODIFICATION_TIME: Tag = Tag {
    id: 0x3008,
    kind: PTYP_TIME,
};

/// What tells a message from all others.
pub const PID_TAG_SEARCH_KEY: Tag = Tag {
    id: ID_SEARCH_KEY,
    kind: PTYP_BINARY,
};

/// The entry id of the folder above a store's folders of mail.
pub const PID_TAG_IPM_SUBTREE_ENTRY_ID: Tag = Tag {
    id: 0x35E0,
    kind: PTYP_BINARY,
};

/// The entry id of the folder of what was deleted.
pub const PID_TAG_IPM_WASTEBASKET_ENTRY_ID: Tag = Tag {
    id: 0x35E3,
    kind: PTYP_BINARY,
};

/// The entry id of the folder of search folders.
pub const PID_TAG_FINDER_ENTRY_ID: Tag = Tag {
    id: 0x35E7,
    kind: PTYP_BINARY,
};

/// How many messages a folder has.
pub const PID_TAG_CONTENT_COUNT: Tag = Tag {
    id: 0x3602,
    kind: PTYP_INTEGER_32,
};

/// How many messages of a folder aren't read.
pub const PID_TAG_CONTENT_UNREAD_COUNT: Tag = Tag {
    id: 0x3603,
    kind: PTYP_INTEGER_32,
};

/// Whether a folder has a folder in it.
pub const PID_TAG_SUBFOLDERS: Tag = Tag {
    id: 0x360A,
    kind: PTYP_BOOLEAN,
};

/// The object that an attachment holds.
pub const PID_TAG_ATTACH_DATA_OBJECT: Tag = Tag {
    id: 0x3701,
    kind: PTYP_OBJECT,
};

/// The bytes of an attachment.
pub const PID_TAG_ATTACH_DATA_BINARY: Tag = Tag {
    id: 0x3701,
    kind: PTYP_BINARY,
};

/// The file name of an attachment.
pub const PID_TAG_ATTACH_FILENAME: Tag = Tag {
    id: 0x3704,
    kind: PTYP_STRING,
};

/// How an attachment holds what is attached.
pub const PID_TAG_ATTACH_METHOD: Tag = Tag {
    id: 0x3705,
    kind: PTYP_INTEGER_32,
};

/// Where a text shows an attachment.
pub const PID_TAG_RENDERING_POSITION: Tag = Tag {
    id: 0x370B,
    kind: PTYP_INTEGER_32,
};

/// The row id of a row of a table.
pub const PID_TAG_LTP_ROW_ID: Tag = Tag {
    id: ID_LTP_ROW_ID,
    kind: PTYP_INTEGER_32,
};

/// The row version of a row of a table.
pub const PID_TAG_LTP_ROW_VER: Tag = Tag {
    id: ID_LTP_ROW_VER,
    kind: PTYP_INTEGER_32,
};
