//! What a new folder has, and what a listing shows.
ghost use Rattle.mail_laws.specs.FolderLaws.{ListsFolders, MakesBareFolder};

/// `mkdir` makes a folder of the name that it is told, with counts that say that it is empty, and with no other value.
pub fn makes_bare_folder()
    ensures { MakesBareFolder }
{}

/// `ls` of a folder of a whole tree shows just the folders that stand in it, and then just the messages whose folder it is, each ascending by id; of a search folder of another program it shows nothing.
pub fn lists_folders()
    ensures { ListsFolders }
{}
