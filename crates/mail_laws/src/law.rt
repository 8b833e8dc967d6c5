//! What follows of every command.
ghost use Rattle.std.specs.Prelude.{ℕ, List};
ghost use Rattle.command_text.specs.declared.command.Command.{Command};
ghost use Rattle.mail_laws.specs.ComesAndGoes.{ComesAndGoes};
ghost use Rattle.mail_laws.specs.Laws.{AddsAttachment, AddsRecipient, AppendsData, Copies, Counts, CountsAnew, CountsStay, GetsWhatWasSet, MakesFolder, MakesMessage, Mirrors, MirrorsStay, Moves, MovesFolder, Reads, Removes, RemovesAttachment, RemovesFolder, RemovesRecipient, SetsEmbedded, RenamesFolder, Sets, Unsets, NamesProperty};
ghost use Rattle.mail_tree.specs.Start.{IsStart};
ghost use Rattle.mail_laws.specs.Stays.{GivesNewIds, KeepsNodes, KeepsTables, KeepsValues, LeavesSearches, StaysFound};
ghost use Rattle.mail_tree.specs.Step.{after, outcome};
ghost use Rattle.mail_tree.specs.Tree.{Tree};
ghost use Rattle.mail_tree.specs.Whole.{Fine, IsWhole};

/// Each command on a whole tree is answered or refused, and leaves a whole tree.
pub fn stays_whole()
    ensures { (T : Tree) (c : Command) → IsWhole T → Fine (outcome T c) (λ o. IsWhole (after T o)) }
{}

/// `mkdir` makes one folder of the name that it is told, where it is told, and leaves all others where they stood and every message as it was.
pub fn makes_folder()
    ensures { MakesFolder }
{}

/// `rename` gives a folder the name that it is told, and leaves all where they stood and every message as it was.
pub fn renames_folder()
    ensures { RenamesFolder }
{}

/// `mvdir` moves one folder, and leaves all others where they stood and every message as it was.
pub fn moves_folder()
    ensures { MovesFolder }
{}

/// `rmdir` removes one folder, and leaves all others where they stood and every message as it was.
pub fn removes_folder()
    ensures { RemovesFolder }
{}

/// `new` makes one message of the class and time that it is told, and leaves all others as they were.
pub fn makes_message()
    ensures { MakesMessage }
{}

/// `set` gives a message the value that it is told, and leaves its others and all other messages as they were.
pub fn sets()
    ensures { Sets }
{}

/// `unset` takes a value from a message, and leaves its others and all other messages as they were.
pub fn unsets()
    ensures { Unsets }
{}

/// `get` after `set` replies the value that was set.
pub fn gets_what_was_set()
    ensures { GetsWhatWasSet }
{}

/// `mv` moves one message with all that it has, and leaves all others as they were.
pub fn moves()
    ensures { Moves }
{}

/// `cp` makes one message with all that the other has, and leaves all others, that one too, as they were.
pub fn copies()
    ensures { Copies }
{}

/// `rm` removes one message, and leaves all others as they were.
pub fn removes()
    ensures { Removes }
{}

/// `rcpt` gives a message the recipient that it is told in a row that none had, and leaves its others and all other messages as they were.
pub fn adds_recipient()
    ensures { AddsRecipient }
{}

/// `unrcpt` takes the recipient of a row from a message, and leaves its others and all other messages as they were.
pub fn removes_recipient()
    ensures { RemovesRecipient }
{}

/// `attach` and `embed` give a message the attachment that they are told under an id that none had, and leave its others and all other messages as they were.
pub fn adds_attachment()
    ensures { AddsAttachment }
{}

/// `append` puts bytes behind the data of an attachment, and leaves the message's others and all other messages as they were.
pub fn appends_data()
    ensures { AppendsData }
{}

/// `eset` and `eunset` put another message into an attachment, and leave the message's others and all other messages as they were.
pub fn sets_embedded()
    ensures { SetsEmbedded }
{}

/// `detach` takes an attachment from a message, and leaves its others and all other messages as they were.
pub fn removes_attachment()
    ensures { RemovesAttachment }
{}

/// `name` replies the property of the name, which is found from then on, leaves each name that was there its property, and leaves all but the names as it was.
pub fn names_property()
    ensures { NamesProperty }
{}

/// `ls`, `get`, `props`, `fetch`, `save` and `quit` change nothing.
pub fn reads()
    ensures { Reads }
{}

/// Where each row mirrors the folder or the message that it shows, it does so after every command.
pub fn mirrors_stay()
    ensures { MirrorsStay }
{}

/// Where the counts of each folder are right, how many messages it has, how many of them weren't read, and whether it has folders, they are so after every command.
pub fn counts_stay()
    ensures { CountsStay }
{}

/// After `new`, `cp`, `set`, `unset`, `rm`, `rcpt`, `unrcpt`, `attach`, `append` and `detach` the counts of the message's folder are right, whatever they were; so are those of both folders after `mv` from one to another, of a new folder and its parent after `mkdir`, of both parents after `mvdir` from one to another, and of the parent after `rmdir`.
pub fn counts_anew()
    ensures { CountsAnew }
{}

/// There is a whole tree whose rows mirror what they show and whose counts are right: that of the root alone.
pub fn some_is_whole()
    ensures { (T : Tree) × IsWhole T × Mirrors T × Counts T }
{}

/// The tree of a new store is whole, its rows mirror what they show, and its counts are right.
pub fn starts_whole()
    ensures { (name : List ℕ) (T : Tree) → IsStart name T → IsWhole T × Mirrors T × Counts T }
{}

/// Each command leaves as it was every node that is no part of a folder, no message and not the store's own, and puts what is new where no node stood.
pub fn keeps_nodes()
    ensures { KeepsNodes }
{}

/// An id that a command gives lies behind all that the counter of its kind has passed, the counter has its index then, and no command changes a counter otherwise: so ids aren't used again.
pub fn gives_new_ids()
    ensures { GivesNewIds }
{}

/// Each command leaves every folder that stays its values but for its counts, and for its name where `rename` gives it one, and leaves the store all of its own.
pub fn keeps_values()
    ensures { KeepsValues }
{}

/// Each command leaves every table that stays its columns, what is kept below it, and each of its rows that names no folder and no message.
pub fn keeps_tables()
    ensures { KeepsTables }
{}

/// The folders of a new store are those that its tables of folders list from the root down, each at most 64 folders below it, and its objects are theirs; where a store is so, it is so after every command, whatever stands beside.
pub fn stays_found()
    ensures { StaysFound }
{}

/// No command of the tree changes a search folder, its updates, its criteria or its results, and each search folder stands where it stood.
pub fn leaves_searches()
    ensures { LeavesSearches }
{}

/// Objects come only with the folder or the message that a command makes, and go only with the one that it removes.
pub fn comes_and_goes()
    ensures { ComesAndGoes }
{}
