//! The subnodes of a message's tables.
ghost use Rattle.std.specs.Prelude.{◌≡◌};
ghost use Rattle.mail_objects.specs.Subnodes.{is_table};

/// The id of the table of attachments ([MS-PST] 2.4.1).
pub const NID_ATTACHMENT_TABLE: u32 = 0x671;

/// The id of the table of recipients ([MS-PST] 2.4.1).
pub const NID_RECIPIENT_TABLE: u32 = 0x692;

/// Whether a table of a message has this id.
pub fn is_table(id: u32) -> bool
    ensures { result ≡ is_table id }
{
    id == NID_RECIPIENT_TABLE || id == NID_ATTACHMENT_TABLE
}
