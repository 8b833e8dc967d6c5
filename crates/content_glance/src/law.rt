//! What is told of the values of a message.
ghost use Rattle.std.specs.Prelude.{ℕ, Option};
ghost use Rattle.mapi_values.specs.Messages.{Mes};
ghost use Rattle.node_port.specs.declared.node.NodeRec.{NodeRec};
ghost use Rattle.mail_objects.specs.Message.{ShowsMessage};
ghost use Rattle.content_glance.specs.declared.content.Glance.{Glance};
ghost use Rattle.content_glance.specs.Glances.{IsTold, Tells};

/// A law: what is told by the data of a message's node is so of the message.
pub fn told_of_message()
    ensures { (nid : ℕ) (node : NodeRec) (m : Mes) (id : ℕ) (told : Option Glance) → ShowsMessage nid node m → Tells node.blocks id told → IsTold id m.props told }
{}
