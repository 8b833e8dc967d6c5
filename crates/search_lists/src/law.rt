//! What follows of the definitions on searches.
ghost use Rattle.search_lists.specs.Laws.{CountsAnew, FreshAfter, HaltedStays, LeavesAll, ListsAfter, ListsAll, PlainCommandsStay, Relists, ScopesAreWithin, SettlesAll, SettlesThere, ShowsAfter, ShowsTouched, StaysFresh, TouchesAll};

/// A search looks in the plain folders that it is given, and in those within them where it is recursive.
pub fn scopes_are_within()
    ensures { ScopesAreWithin }
{}

/// The list of a search ascends and has just the messages that the search is to list. Rows that ascend are in the order of what a search is to list exactly where each message has one that is to.
pub fn lists_all()
    ensures { ListsAll }
{}

/// The messages that a command touches tell what was and what is, and each other message is listed where it was.
pub fn touches_all()
    ensures { TouchesAll }
{}

/// A running search that lists what it is to list does so after the touched messages came and went.
pub fn relists()
    ensures { Relists }
{}

/// After each command a running search lists what filtering all messages gives, where it did before.
pub fn lists_after()
    ensures { ListsAfter }
{}

/// A touched message has a row that shows it where the search is to list it, anew where the command put it, and each other row stays as it was.
pub fn shows_touched()
    ensures { ShowsTouched }
{}

/// A search that is stopped or static loses the rows of messages that are gone, and keeps all others as they were.
pub fn halted_stays()
    ensures { HaltedStays }
{}

/// After searches were settled each table of theirs has the rows that the touched messages leave it, and messages and other tables are as they were.
pub fn settles_all()
    ensures { SettlesAll }
{}

/// A search of which a row came, went or shows its message anew tells how many messages its rows name and how many of them weren't read.
pub fn counts_anew()
    ensures { CountsAnew }
{}

/// Searches are settled where their nodes are there and their rows name messages then, and the nodes are there still.
pub fn settles_there()
    ensures { SettlesThere }
{}

/// No command by itself changes a table of a search.
pub fn leaves_all()
    ensures { LeavesAll }
{}

/// Running searches list what they are to list after all were settled, where they did before and the touched messages are all that matter.
pub fn stays_fresh()
    ensures { StaysFresh }
{}

/// After each command, with its searches settled, each running search lists what filtering all messages gives, where it did before.
pub fn fresh_after()
    ensures { FreshAfter }
{}

/// Where each running search's rows mirrored the messages that they name, and its values told their counts, they do so after each command with its searches settled.
pub fn shows_after()
    ensures { ShowsAfter }
{}

/// After each command that knows no searches these are still those of the tree, and each running one lists what filtering all messages gives, where all that was so before.
pub fn plain_commands_stay()
    ensures { PlainCommandsStay }
{}
