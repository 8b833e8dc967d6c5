//! The criteria of a search.

use crate::flags::SearchFlags;
use pst_base::Nid;
use restr_codec::Restriction;
use std::marker::Model;

/// Which form the criteria object of a search has.
#[derive(Clone, Copy, Debug, PartialEq, Eq)]
pub enum Version {
    /// Without a number of builds: each search is running, and counts as built once.
    First,
    /// With a number of builds. Every object that is written anew has this form.
    Second,
}

/// What was set of a search: how it is done, the folders that it is given in the order given, what it asks of a message, and how often its list was built. Contracts see a `CritSet`, one that an object can hold.
#[derive(Debug, Drop)]
pub struct CriteriaSet {
    pub flags: SearchFlags,
    pub scope: Vec<Nid>,
    pub restriction: Restriction,
    pub builds: u32,
}

impl Model for CriteriaSet {
    ghost use Rattle.std.specs.Prelude.{map};
    ghost use Rattle.search_obj.specs.Crits.{CritSet, IsSoundSet};

    ghost Value = { CritSet };

    ghost use Rattle.std.specs.Coded.{codes};
    ghost use Rattle.restr_codec.specs.contracts.restriction.Restriction as stored;

    ghost coded = { Prim.hlevel (codes, stored.the_row.coded) };

    ghost view = { λ c. record { flags = c.flags; scope = map (λ n. n.bits) c.scope.items; restriction = c.restriction; builds = c.builds } };

    ghost invariant = { λ c. IsSoundSet c.flags (map (λ n. n.bits) c.scope.items) c.restriction c.builds };
}

/// The criteria of a search of this program: the version of their object, and what was set, if anything was. Contracts see a `Crit`.
#[derive(Debug, Drop)]
pub struct Criteria {
    pub version: Version,
    pub set: Option<CriteriaSet>,
}

impl Model for Criteria {
    ghost use Rattle.std.specs.Prelude.{IsTrue};
    ghost use Rattle.search_obj.specs.Crits.{Crit, suits};

    ghost Value = { Crit };

    ghost use Rattle.std.specs.Coded.{codes};
    ghost use Rattle.restr_codec.specs.contracts.restriction.Restriction as stored;

    ghost coded = { Prim.hlevel (codes, stored.the_row.coded) };

    ghost view = { λ c. record { version = c.version; set = c.set } };

    ghost invariant = { λ c. IsTrue (suits c.version c.set) };
}
