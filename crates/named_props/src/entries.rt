//! A list of entries.
ghost use Rattle.std.specs.Prelude.{◌≡◌, ◌∷◌, ◌++◌, ◌<◌, ◌^◌, [], IsTrue, OnErr, OnOk, length, take};
ghost use Rattle.std.specs.List.{list_all};
ghost use Rattle.named_props.specs.Entries.{in_range};

use crate::entry::NameEntry;
use std::alloc::AllocError;
use std::marker::Model;

/// Entries in the order of their stream, with indices that names may have: at most 32,766 of a property, and at most 32,767 of a GUID. Contracts see the list.
#[derive(Debug, Drop)]
pub struct NameEntries {
    items: Vec<NameEntry>,
}

impl Model for NameEntries {
    ghost use Rattle.std.specs.Prelude.{List, IsTrue};
    ghost use Rattle.std.specs.List.{list_all};
    ghost use Rattle.named_props.specs.declared.entry.NameEntry.{NameEntry};
    ghost use Rattle.named_props.specs.Entries.{in_range};

    ghost Value = { List NameEntry };

    ghost view = { λ e. e.items.items };

    ghost invariant = { λ e. IsTrue (list_all in_range e.items.items) };
}

impl NameEntries {
    /// The entries of a vector, which it keeps. Their indices are ones that names may have.
    pub fn from_vec(items: Vec<NameEntry>) -> NameEntries
        requires { IsTrue (list_all in_range items.items) }
        ensures { result ≡ items.items }
    {
        NameEntries { items }
    }

    /// The vector that keeps the entries.
    pub fn into_vec(self) -> Vec<NameEntry>
        ensures items { result.items ≡ self }
        ensures range { IsTrue (list_all in_range self) }
    {
        self.items
    }

    /// The entries.
    pub fn as_slice(&self) -> &[NameEntry]
        ensures value { result.now ≡ self.now }
        ensures len { length result.now ≡ length self.now }
        ensures range { IsTrue (list_all in_range self.now) }
    {
        self.items.as_slice()
    }

    /// How many entries there are.
    pub fn len(&self) -> usize
        ensures value { result ≡ length self.now }
        ensures small { result < 2 ^ 63 }
    {
        self.items.len()
    }

    /// Puts an entry at the end. An `Err` changes nothing.
    pub fn push(&mut self, entry: NameEntry) -> Result<(), AllocError>
        requires { IsTrue (in_range entry) }
        ensures ok { OnOk result (self.new ≡ self.old ++ entry ∷ []) }
        ensures err { OnErr result (self.new ≡ self.old) }
    {
        self.items.push(entry)?;
        Ok(())
    }

    /// Keeps the first `len` entries.
    pub fn truncate(&mut self, len: usize)
        ensures { self.new ≡ take len self.old }
    {
        self.items.truncate(len);
    }
}
