//! The entries of the inner pages of both trees.
ghost use Rattle.std.specs.Prelude.{◌≡◌, ◌≤◌, ◌+◌, length};
ghost use Rattle.pst_base.specs.Fields.{replaced};
ghost use Rattle.btree_pages.specs.Entries.{inner_bytes, inner_of, InnerFits};

use pst_base::{Bid, Bref, put_u64, u64_at};

/// A page one level below, and a key that each key in it reaches ([MS-PST] 2.2.2.7.7.2). The key is the number as it stands; the tree's rule makes the key that counts of it.
#[derive(Clone, Copy, Debug, PartialEq, Eq)]
pub struct Inner {
    pub key: u64,
    pub page: Bref,
}

impl Inner {
    /// Reads an entry's 24 bytes.
    #[tactic(auto, unfolding(crate::specs::Entries::inner_of))]
    pub fn read(b: &[u8]) -> Inner
        requires { length b.now ≡ 24 }
        ensures { result ≡ inner_of b.now }
    {
        Inner {
            key: u64_at(b, 0),
            page: Bref {
                bid: Bid { bits: u64_at(b, 8) },
                ib: u64_at(b, 16),
            },
        }
    }

    /// Writes the entry's 24 bytes from a place on.
    pub(crate) fn put(self, page: &mut [u8], at: usize)
        requires { at + 24 ≤ length page.old }
        ensures written { page.new ≡ replaced at (inner_bytes self) page.old }
        ensures fits { InnerFits self }
    {
        put_u64(page, at, self.key);
        put_u64(page, at + 8, self.page.bid.bits);
        put_u64(page, at + 16, self.page.ib);
    }
}
