//! What a store knows of its tree beside the nodes.
ghost use Rattle.std.specs.Prelude.{◌≡◌, ◌==◌, ◌&&◌, ℕ, [], Some, OnErr, OnOk, if◌then◌else◌, not, ◌||◌};

use crate::note::Note;
use crate::places::Places;
use mapi_values::Units;
use std::alloc::{AllocError, Global};
use std::collections::BTreeMap;
use std::marker::Model;

/// Which messages of a store are unread and what its folders are named, as far as it is known. Contracts see a list of what is known of each object.
#[derive(Debug, Drop)]
pub struct Flags {
    notes: BTreeMap<u32, Option<Note>>,
}

impl Model for Flags {
    ghost use Rattle.std.specs.Prelude.{ℕ, List, Option};
    ghost use Rattle.mail_tree.specs.declared.note.Note.{Note};

    ghost Value = { List (ℕ × Option Note) };

    ghost view = { λ f. f.notes.entries };
}

/// What a store knows of its tree beside the nodes.
#[derive(Debug, Drop)]
pub struct Known {
    pub places: Places,
    pub flags: Flags,
}

impl Flags {
    ghost use Rattle.std.specs.Option.{is_some, option_copied};
    ghost use Rattle.mail_tree.specs.Flags.{SameFlags, has_room, known_flag, known_name, known_note};

    /// Nothing is known. Takes no memory.
    pub fn new(alloc: Global) -> Flags
        ensures { result ≡ [] }
    {
        Flags {
            notes: BTreeMap::new(alloc),
        }
    }

    /// Whether a message is unread, or `None` where that isn't known.
    pub fn get(&self, message: u32) -> Option<bool>
        ensures { result ≡ known_flag message self.now }
    {
        match self.notes.get(&message) {
            Some(Some(Note::Unread(unread))) => Some(*unread),
            _ => None,
        }
    }

    /// The name of a folder, its case folded, or `None` where that isn't known.
    pub fn name(&self, folder: u32) -> Option<&Units>
        ensures { option_copied result ≡ known_name folder self.now }
    {
        match self.notes.get(&folder) {
            Some(Some(Note::Named(name))) => Some(name),
            _ => None,
        }
    }

    /// Makes an entry for an object, if there is none. What is known stays, and an `Err` changes nothing.
    pub fn make_room(&mut self, nid: u32) -> Result<(), AllocError>
        ensures known { SameFlags self.old self.new }
        ensures ok { OnOk result ((q : ℕ) → has_room q self.new ≡ (q == nid) || has_room q self.old) }
        ensures err { OnErr result (self.new ≡ self.old) }
    {
        if !self.notes.contains_key(&nid) {
            let _none_before = self.notes.insert(nid, None)?;
        }
        Ok(())
    }

    /// Has the entry of an object say what is known of it, or takes it out for `None`. Where there is no entry nothing changes. Takes no memory.
    pub fn set(&mut self, nid: u32, note: Option<Note>)
        ensures known { (q : ℕ) → known_note q self.new ≡ (if (q == nid) && has_room nid self.old then note else known_note q self.old) }
        ensures room { (q : ℕ) → has_room q self.new ≡ has_room q self.old && (is_some note || not (q == nid)) }
    {
        match note {
            Some(note) => self.write(nid, note),
            None => {
                let _taken_out = self.notes.remove(&nid);
            }
        }
    }

    /// Has the entry of an object say what is known of it, if there is one.
    fn write(&mut self, nid: u32, note: Note)
        ensures known { (q : ℕ) → known_note q self.new ≡ (if (q == nid) && has_room nid self.old then Some note else known_note q self.old) }
        ensures room { (q : ℕ) → has_room q self.new ≡ has_room q self.old }
    {
        if let Some(entry) = self.notes.get_mut(&nid) {
            *entry = Some(note);
        }
    }
}
