//! What follows of the commands that only read.
ghost use Rattle.mail_reading.specs.Asked.{ReadsLeave};

/// A command that only reads is answered or refused on a whole tree whose searches are those of its nodes, whatever these list, and leaves the tree and its searches.
pub fn reads_leave()
    ensures { ReadsLeave }
{}
