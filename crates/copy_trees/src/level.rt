//! The pages of one level.
ghost use Rattle.std.specs.Prelude.{◌≡◌, length};

use pst_base::Bref;
use std::marker::Model;

/// The pages of a level of a tree, in the order of their keys, each by its id and place. Contracts see them as a list.
#[derive(Drop)]
pub struct Level {
    pages: Vec<Bref>,
}

impl Model for Level {
    ghost use Rattle.std.specs.Prelude.{List};
    ghost use Rattle.pst_base.specs.declared.ids.Bref.{Bref};

    ghost Value = { List Bref };

    ghost view = { λ l. l.pages.items };
}

impl Level {
    /// The level of these pages, which it keeps.
    pub(crate) fn from_vec(pages: Vec<Bref>) -> Level
        ensures { result ≡ pages.items }
    {
        Level { pages }
    }

    /// The pages.
    pub fn as_slice(&self) -> &[Bref]
        ensures value { result.now ≡ self.now }
        ensures len { length result.now ≡ length self.now }
    {
        self.pages.as_slice()
    }
}
