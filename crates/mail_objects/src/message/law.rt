//! What the definition of a message's node is worth.
ghost use Rattle.std.specs.Prelude.{◌≡◌, ℕ};
ghost use Rattle.mapi_values.specs.Messages.{Mes};
ghost use Rattle.node_port.specs.declared.node.NodeRec.{NodeRec};
ghost use Rattle.mail_objects.specs.Message.{ShowsMessage};
ghost use Rattle.mail_objects.specs.Reading.{LacksMessage};
ghost use Rattle.mail_objects.specs.declared.message.fault.MessageFault.{MessageFault};

/// A node is at most one message, so that a message that was written is read again.
pub fn one_message()
    ensures { (nid : ℕ) (node : NodeRec) (m n : Mes) → ShowsMessage nid node m → ShowsMessage nid node n → m ≡ n }
{}

/// A node that is no message has one fault: that of the first part that is at fault.
pub fn one_fault()
    ensures { (node : NodeRec) (fault other : MessageFault) → LacksMessage node fault → LacksMessage node other → fault ≡ other }
{}
