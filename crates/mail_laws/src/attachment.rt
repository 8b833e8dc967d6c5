//! The rows of a message's table of attachments.
ghost use Rattle.mail_laws.specs.AttachmentLaws.{AttachmentsStay};

/// Where the rows of a message's table of attachments mirror its attachments they do so after every command; where they do so in every message of a tree, as in that of a new store, they do after every command, in a new message and in a copy too.
pub fn attachments_stay()
    ensures { AttachmentsStay }
{}
