//! The search folders of a store that are its own.
ghost use Rattle.std.specs.Prelude.{◌≡◌, [], IfOk, OnErr, OnOk};
ghost use Rattle.mapi_values.specs.Keyed.{drop_key, put_key};
ghost use Rattle.mail_searches.specs.Searching.{is_own};

use mapi_values::{Keyed, drop_keyed, put_keyed};
use pst_base::Nid;
use std::alloc::{AllocError, Global};
use std::marker::Model;

/// One of a store's own search folders.
#[derive(Clone, Copy, Debug)]
pub(crate) struct OwnFolder {
    pub(crate) nid: Nid,
}

impl Keyed for OwnFolder {
    ghost key_of = { λ f. f.nid.bits };

    fn key(&self) -> u32 {
        self.nid.bits
    }
}

/// The ids of a store's own search folders. Contracts see the list of their bits, which ascends.
#[derive(Debug, Drop)]
pub struct OwnFolders {
    folders: Vec<OwnFolder>,
}

impl Model for OwnFolders {
    ghost use Rattle.std.specs.Prelude.{◌≡◌, ℕ, List, map, true};
    ghost use Rattle.mapi_values.specs.Keyed.{keys_ascend};

    ghost Value = { List ℕ };

    ghost view = { λ o. map (λ f. f.nid.bits) o.folders.items };

    ghost invariant = { λ o. keys_ascend (λ f. f) 0 (map (λ f. f.nid.bits) o.folders.items) ≡ true };
}

impl OwnFolders {
    /// None. Takes no memory.
    pub fn new(alloc: Global) -> OwnFolders
        ensures { result ≡ [] }
    {
        OwnFolders {
            folders: Vec::new(alloc),
        }
    }

    /// Whether a folder is one of them. Takes no memory.
    pub fn contains(&self, folder: Nid) -> bool
        ensures { result ≡ is_own self.now folder.bits }
    {
        for own in &self.folders {
            if own.nid.bits == folder.bits {
                return true;
            }
        }
        false
    }

    /// Has one more. An `Err` changes nothing.
    #[tactic(auto, using(crate::proofs::OwnLaws::ascend_map, crate::proofs::OwnLaws::put_map))]
    pub fn put(&mut self, folder: Nid) -> Result<(), AllocError>
        ensures ok { OnOk result (self.new ≡ put_key (λ f. f) folder.bits self.old) }
        ensures err { OnErr result (self.new ≡ self.old) }
    {
        put_keyed(&mut self.folders, OwnFolder { nid: folder })
    }

    /// The same folders again.
    pub fn copy(&self, alloc: Global) -> Result<OwnFolders, AllocError>
        ensures { IfOk result (λ o. o ≡ self.now) }
    {
        let folders = Vec::from_slice(alloc, self.folders.as_slice())?;
        Ok(OwnFolders { folders })
    }

    /// These and one more.
    pub fn with(&self, alloc: Global, folder: Nid) -> Result<OwnFolders, AllocError>
        ensures { IfOk result (λ o. o ≡ put_key (λ f. f) folder.bits self.now) }
    {
        let mut own = self.copy(alloc)?;
        own.put(folder)?;
        Ok(own)
    }

    /// These without one.
    #[tactic(auto, using(crate::proofs::OwnLaws::ascend_map, crate::proofs::OwnLaws::drop_map))]
    pub fn without(&self, alloc: Global, folder: Nid) -> Result<OwnFolders, AllocError>
        ensures { IfOk result (λ o. o ≡ drop_key (λ f. f) folder.bits self.now) }
    {
        let mut folders = Vec::from_slice(alloc, self.folders.as_slice())?;
        let _was_there = drop_keyed(&mut folders, folder.bits);
        Ok(OwnFolders { folders })
    }
}
