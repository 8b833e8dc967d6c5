//! The folders that a search is given.
ghost use Rattle.std.specs.Prelude.{◌≡◌, map};

use pst_base::Nid;
use std::marker::Model;

/// The ids of folders, in the order given. Contracts see the list of their bits.
#[derive(Debug, Drop)]
pub struct Scope {
    folders: Vec<Nid>,
}

impl Model for Scope {
    ghost use Rattle.std.specs.Prelude.{ℕ, List, map};

    ghost Value = { List ℕ };

    ghost view = { λ s. map (λ n. n.bits) s.folders.items };
}

impl Scope {
    /// The ids of a vector, which it keeps.
    pub fn from_vec(folders: Vec<Nid>) -> Scope
        ensures { result ≡ map (λ n. n.bits) folders.items }
    {
        Scope { folders }
    }

    /// The vector that keeps the ids.
    pub fn into_vec(self) -> Vec<Nid>
        ensures { map (λ n. n.bits) result.items ≡ self }
    {
        self.folders
    }

    /// The ids.
    pub fn as_slice(&self) -> &[Nid]
        ensures { map (λ n. n.bits) result.now ≡ self.now }
    {
        self.folders.as_slice()
    }
}
