//! Where a message is found, and what it tells of itself.
ghost use Rattle.mail_laws.specs.MessageLaws.{FindsMessages, MakesBareMessage, TellRightly};

/// On a whole tree a command finds a message exactly where the tree has it, and is refused where the tree has none.
pub fn finds_messages()
    ensures { FindsMessages }
{}

/// After `new`, `set`, `unset`, `rcpt`, `unrcpt`, `attach`, `append` and `detach` the message tells its own size, and whether it has attachments, whatever it told before.
pub fn tell_rightly()
    ensures { TellRightly }
{}

/// `new` makes a message of the class and the time that it is told, without flags, of its size and with a search key, with the values that it is given, and with no other value, no recipient and no attachment.
pub fn makes_bare_message()
    ensures { MakesBareMessage }
{}
