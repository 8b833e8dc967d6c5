//! The folders of a store by their ids and parents.
ghost use Rattle.std.specs.Prelude.{◌≡◌, ◌≤◌, ◌+◌, ◌-◌, ◌==◌, ◌&&◌, [], IfOk, None, OnErr, OnOk, length, nat_lt, option_copied, option_map, vec_len, if◌then◌else◌};

use mapi_values::{Keyed, drop_keyed, find_keyed, put_keyed};
use pst_base::Nid;
use std::alloc::{AllocError, Global};
use std::marker::Model;

/// The root of all folders, which is its own parent.
pub const ROOT_FOLDER: u32 = 0x122;

/// Of which sort a folder is.
#[derive(Clone, Copy, Debug, PartialEq, Eq)]
pub enum Sort {
    /// A folder that holds folders and messages.
    Plain,
    /// A search folder that another program made.
    Foreign,
}

/// Where a folder stands: its id, its parent's (the root's is its own), and its sort.
#[derive(Clone, Copy, Debug, PartialEq, Eq)]
pub struct FolderPlace {
    pub nid: Nid,
    pub parent: Nid,
    pub sort: Sort,
}

impl Keyed for FolderPlace {
    ghost key_of = { λ p. p.nid.bits };

    fn key(&self) -> u32 {
        self.nid.bits
    }
}

/// The places of all folders of a store. Contracts see the list, which ascends by id.
#[derive(Debug, Drop)]
pub struct Places {
    places: Vec<FolderPlace>,
}

impl Model for Places {
    ghost use Rattle.std.specs.Prelude.{◌≡◌, List, true};
    ghost use Rattle.mapi_values.specs.Keyed.{keys_ascend};
    ghost use Rattle.mail_tree.specs.declared.places.FolderPlace.{FolderPlace};

    ghost Value = { List FolderPlace };

    ghost use Rattle.mail_tree.specs.Places.{place_id};

    ghost view = { λ p. p.places.items };

    ghost invariant = { λ p. keys_ascend place_id 0 p.places.items ≡ true };
}

impl Places {
    ghost use Rattle.mapi_values.specs.Keyed.{drop_key, put_key};
    ghost use Rattle.mail_tree.specs.Places.{ROOT, find_place, is_deep, is_within, moves_deep, parent_in, path, place_id};

    /// No places. Takes no memory.
    pub fn new(alloc: Global) -> Places
        ensures { result ≡ [] }
    {
        Places {
            places: Vec::new(alloc),
        }
    }

    /// The places, ascending by id.
    pub fn as_slice(&self) -> &[FolderPlace]
        ensures { result.now ≡ self.now }
    {
        self.places.as_slice()
    }

    /// The folder with this id.
    pub fn find(&self, folder: Nid) -> Option<&FolderPlace>
        ensures { option_copied result ≡ find_place folder.bits self.now }
    {
        find_keyed(self.places.as_slice(), folder.bits)
    }

    /// Puts a folder in place of the one with its id. An `Err` changes nothing.
    pub fn put(&mut self, place: FolderPlace) -> Result<(), AllocError>
        ensures ok { OnOk result (self.new ≡ put_key place_id place self.old) }
        ensures err { OnErr result (self.new ≡ self.old) }
    {
        put_keyed(&mut self.places, place)
    }

    /// Takes out the folder with this id. Takes no memory.
    pub fn remove(&mut self, folder: Nid)
        ensures { self.new ≡ drop_key place_id folder.bits self.old }
    {
        let _was_there = drop_keyed(&mut self.places, folder.bits);
    }

    /// The same places again.
    pub fn copy(&self, alloc: Global) -> Result<Places, AllocError>
        ensures { IfOk result (λ p. p ≡ self.now) }
    {
        Ok(Places {
            places: Vec::from_slice(alloc, self.places.as_slice())?,
        })
    }

    /// The folder that a folder stands in; the root stands in none.
    fn above(&self, folder: Nid) -> Option<Nid>
        ensures { option_map (λ p. p.bits) result ≡ (if folder.bits == ROOT then None else parent_in self.now folder.bits) }
    {
        if folder.bits == ROOT_FOLDER {
            return None;
        }
        match self.find(folder) {
            Some(place) => Some(place.parent),
            None => None,
        }
    }

    /// The ids of a folder and of those above it up to the root, at most 65.
    fn path(&self, alloc: Global, folder: Nid) -> Result<Vec<u32>, AllocError>
        ensures path { IfOk result (λ ids. ids.items ≡ path self.now folder.bits) }
        ensures short { IfOk result (λ ids. vec_len ids ≤ 65) }
    {
        let mut ids = Vec::new(alloc);
        ids.push(folder.bits)?;
        let mut at = folder;
        for _turn in 0..64u8 {
            let Some(parent) = self.above(at) else {
                return Ok(ids);
            };
            ids.push(parent.bits)?;
            at = parent;
        }
        Ok(ids)
    }

    /// Whether a folder is that one or stands somewhere below it.
    pub fn is_within(&self, alloc: Global, folder: Nid, below: Nid) -> Result<bool, AllocError>
        ensures { IfOk result (λ b. b ≡ is_within self.now folder.bits below.bits) }
    {
        Ok(self.path(alloc, below)?.as_slice().contains(&folder.bits))
    }

    /// Whether a folder directly in that one would stand below more than 64 others.
    pub fn is_deep(&self, alloc: Global, parent: Nid) -> Result<bool, AllocError>
        ensures { IfOk result (λ b. b ≡ is_deep self.now parent.bits) }
    {
        Ok(self.path(alloc, parent)?.len() > 64)
    }

    /// Whether a folder is within that one, whose path has so many ids, and would stand below more than 64 others, if that one stood in a folder whose path has so many ids.
    fn gets_deep(
        &self,
        alloc: Global,
        folder: Nid,
        below: Nid,
        old_len: usize,
        parent_len: usize,
    ) -> Result<bool, AllocError>
        requires { parent_len ≤ 65 }
        ensures { IfOk result (λ b. b ≡ is_within self.now folder.bits below.bits && nat_lt 64 (parent_len + (length (path self.now below.bits) - old_len))) }
    {
        let path = self.path(alloc, below)?;
        let is_within = path.as_slice().contains(&folder.bits);
        Ok(is_within && parent_len + path.len().saturating_sub(old_len) > 64)
    }

    /// Whether some folder within one would stand below more than 64 others, if it stood directly in that parent.
    pub fn moves_deep(&self, alloc: Global, folder: Nid, parent: Nid) -> Result<bool, AllocError>
        ensures { IfOk result (λ b. b ≡ moves_deep self.now folder.bits parent.bits) }
    {
        let old_len = self.path(alloc, folder)?.len();
        let parent_len = self.path(alloc, parent)?.len();
        for place in self.places.as_slice() {
            if self.gets_deep(alloc, folder, place.nid, old_len, parent_len)? {
                return Ok(true);
            }
        }
        Ok(false)
    }
}
