//! A message that can be laid out as a node.
ghost use Rattle.std.specs.Prelude.{◌≡◌, true, IfOk};

use mapi_values::Message;
use std::alloc::{AllocError, Global};
use std::marker::Model;

/// A message that can be laid out as a node. Contracts see the message.
#[derive(Debug, Drop)]
pub struct Mail {
    message: Message,
}

impl Model for Mail {
    ghost use Rattle.std.specs.Prelude.{◌≡◌, true};
    ghost use Rattle.mapi_values.specs.Messages.{Mes};
    ghost use Rattle.mail_objects.specs.Message.{is_formed};

    ghost Value = { Mes };

    ghost view = { λ m. m.message };

    ghost invariant = { λ m. is_formed m.message ≡ true };
}

impl Mail {
    ghost use Rattle.mail_objects.specs.Message.{is_formed};

    /// A message that can be laid out.
    pub fn new(message: Message) -> Mail
        requires { is_formed message ≡ true }
        ensures { result ≡ message }
    {
        Mail { message }
    }

    /// The message.
    pub fn message(&self) -> &Message
        ensures message { result.now ≡ self.now }
        ensures formed { is_formed self.now ≡ true }
    {
        &self.message
    }

    /// The message, to be taken apart.
    pub fn into_message(self) -> Message
        ensures message { result ≡ self }
        ensures formed { is_formed self ≡ true }
    {
        self.message
    }

    /// The same again.
    pub fn copy(&self, alloc: Global) -> Result<Mail, AllocError>
        ensures { IfOk result (λ m. m ≡ self.now) }
    {
        Ok(Mail {
            message: self.message.copy(alloc)?,
        })
    }
}
