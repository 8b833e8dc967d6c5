//! Objects that were read.
use mail_objects::Context;
use pst_base::Nid;
use std::alloc::{AllocError, Global};
use std::collections::BTreeMap;
use std::marker::Model;

/// Properties that were read, by their ids. Contracts see the list.
#[derive(Debug, Drop)]
pub struct Seen {
    contexts: BTreeMap<u32, Context>,
}

impl Model for Seen {
    ghost use Rattle.std.specs.Prelude.{ℕ, List};
    ghost use Rattle.mail_objects.specs.Forms.{Ctx};

    ghost Value = { List (ℕ × Ctx) };

    ghost view = { λ s. s.contexts.entries };
}

impl Seen {
    ghost use Rattle.std.specs.Prelude.{◌≡◌, [], OnErr, OnOk};
    ghost use Rattle.std.specs.Option.{option_copied};
    ghost use Rattle.mail_draft.specs.Seen.{seen_at, Sees};

    /// Nothing was read. Takes no memory.
    pub fn new(alloc: Global) -> Seen
        ensures { result ≡ [] }
    {
        Seen {
            contexts: BTreeMap::new(alloc),
        }
    }

    /// What was read at an id, if anything was.
    pub fn get(&self, nid: Nid) -> Option<&Context>
        ensures { option_copied result ≡ seen_at nid.bits self.now }
    {
        self.contexts.get(&nid.bits)
    }

    /// Keeps what was read at an id. An `Err` changes nothing.
    pub fn keep(&mut self, nid: Nid, context: Context) -> Result<(), AllocError>
        ensures ok { OnOk result (Sees nid.bits context self.old self.new) }
        ensures err { OnErr result (self.new ≡ self.old) }
    {
        let _replaced = self.contexts.insert(nid.bits, context)?;
        Ok(())
    }
}
