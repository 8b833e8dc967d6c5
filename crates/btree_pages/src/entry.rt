//! The entries of the leaves of both trees.
ghost use Rattle.std.specs.Prelude.{◌≡◌, ◌≤◌, ◌+◌, ℕ, List, length};
ghost use Rattle.pst_base.specs.Fields.{number_at, replaced};

use pst_base::{Bid, Bref, Nid, put_u16, put_u32, put_u64, u16_at, u32_at, u64_at};

/// An entry of a leaf. Its tree also has a rule that makes a key of the number in the first 8 bytes of each entry, in inner pages too.
pub trait Entry: Copy {
    /// How many bytes an entry of a leaf has.
    ghost size: { ℕ };

    /// The key that the tree's rule makes of the number in the first 8 bytes of an entry.
    ghost rule: { ℕ → ℕ };

    /// The numbers of an entry fit their fields, as those of each value do.
    ghost fits: { Self → Type 0 };

    /// An entry's key.
    ghost key: { Self → ℕ };

    /// An entry's bytes.
    ghost bytes: { Self → List ℕ };

    /// The entry that bytes are.
    ghost entry_of: { List ℕ → Self };

    /// How many bytes an entry of a leaf has.
    fn size() -> usize
        ensures value { result ≡ size }
        ensures low { 24 ≤ result }
        ensures high { result ≤ 32 };

    /// The key that the tree's rule makes of the number in the first 8 bytes of an entry.
    fn rule(first: u64) -> u64
        ensures { result ≡ rule first };

    /// The entry's key.
    fn key(self) -> u64
        ensures value { result ≡ key self }
        ensures fits { fits self };

    /// Reads an entry's bytes.
    fn read(b: &[u8]) -> Self
        requires { length b.now ≡ size }
        ensures { result ≡ entry_of b.now };

    /// Writes the entry's bytes from a place on.
    fn put(self, page: &mut [u8], at: usize)
        requires { at + size ≤ length page.old }
        ensures written { page.new ≡ replaced at (bytes self) page.old }
        ensures fits { fits self };

    /// The bytes have the size.
    ghost sized: { (e : Self) → length (bytes e) ≡ size };

    /// The bytes read back.
    ghost reads_back: { (e : Self) → fits e → entry_of (bytes e) ≡ e };

    /// The first 8 bytes give the key.
    ghost keyed: { (e : Self) → fits e → rule (number_at 8 0 (bytes e)) ≡ key e };

    /// The key of what is read is the one that the bytes give.
    ghost key_read: { (b : List ℕ) → key (entry_of b) ≡ rule (number_at 8 0 b) };

    /// A key makes itself.
    ghost steady: { (first : ℕ) → rule (rule first) ≡ rule first };
}

/// A block: its id and place, how many bytes its data has, and 1 more than the number of places that name it ([MS-PST] 2.2.2.7.7.3). No reader relies on `refs`.
#[derive(Clone, Copy, Debug, PartialEq, Eq)]
pub struct BlockEntry {
    pub at: Bref,
    pub cb: u16,
    pub refs: u16,
}

impl Entry for BlockEntry {
    ghost use Rattle.pst_base.specs.Ids.{key_of};
    ghost use Rattle.btree_pages.specs.Entries.{BlockFits, block_bytes, block_of};
    ghost use Rattle.btree_pages.specs.EntryLaws.{length-block_bytes, block_of-block_bytes, key-block_bytes, key-block_of, key_of-key_of};

    ghost size = { 24 };

    ghost rule = { key_of };

    ghost fits = { BlockFits };

    ghost key = { λ e. key_of e.at.bid.bits };

    ghost bytes = { block_bytes };

    ghost entry_of = { block_of };

    ghost sized = { length-block_bytes };

    ghost reads_back = { block_of-block_bytes };

    ghost keyed = { key-block_bytes };

    ghost key_read = { key-block_of };

    ghost steady = { key_of-key_of };

    fn size() -> usize {
        24
    }

    fn rule(first: u64) -> u64 {
        Bid { bits: first }.key()
    }

    fn key(self) -> u64 {
        self.at.bid.key()
    }

    #[tactic(auto, unfolding(crate::specs::Entries::block_of))]
    fn read(b: &[u8]) -> BlockEntry {
        BlockEntry {
            at: Bref {
                bid: Bid { bits: u64_at(b, 0) },
                ib: u64_at(b, 8),
            },
            cb: u16_at(b, 16),
            refs: u16_at(b, 18),
        }
    }

    fn put(self, page: &mut [u8], at: usize) {
        put_u64(page, at, self.at.bid.bits);
        put_u64(page, at + 8, self.at.ib);
        put_u16(page, at + 16, self.cb);
        put_u16(page, at + 18, self.refs);
        put_u32(page, at + 20, 0);
    }
}

/// A node: its id, the block of its data, the block of its subnodes, and its parent ([MS-PST] 2.2.2.7.7.4). A block of 0 is none.
#[derive(Clone, Copy, Debug, PartialEq, Eq)]
pub struct NodeEntry {
    pub nid: Nid,
    pub content: Bid,
    pub subnodes: Bid,
    pub parent: Nid,
}

impl Entry for NodeEntry {
    ghost use Rattle.btree_pages.specs.Entries.{NodeFits, node_bytes, node_of, node_key};
    ghost use Rattle.btree_pages.specs.EntryLaws.{length-node_bytes, node_of-node_bytes, key-node_bytes, key-node_of, node_key-node_key};

    ghost size = { 32 };

    ghost rule = { node_key };

    ghost fits = { NodeFits };

    ghost key = { λ e. e.nid.bits };

    ghost bytes = { node_bytes };

    ghost entry_of = { node_of };

    ghost sized = { length-node_bytes };

    ghost reads_back = { node_of-node_bytes };

    ghost keyed = { key-node_bytes };

    ghost key_read = { key-node_of };

    ghost steady = { node_key-node_key };

    fn size() -> usize {
        32
    }

    fn rule(first: u64) -> u64 {
        first % 0x1_0000_0000
    }

    fn key(self) -> u64 {
        u64::from(self.nid.bits)
    }

    #[tactic(auto, unfolding(crate::specs::Entries::node_of))]
    fn read(b: &[u8]) -> NodeEntry {
        NodeEntry {
            nid: Nid {
                bits: (u64_at(b, 0) % 0x1_0000_0000) as u32,
            },
            content: Bid { bits: u64_at(b, 8) },
            subnodes: Bid {
                bits: u64_at(b, 16),
            },
            parent: Nid {
                bits: u32_at(b, 24),
            },
        }
    }

    fn put(self, page: &mut [u8], at: usize) {
        put_u64(page, at, u64::from(self.nid.bits));
        put_u64(page, at + 8, self.content.bits);
        put_u64(page, at + 16, self.subnodes.bits);
        put_u32(page, at + 24, self.parent.bits);
        put_u32(page, at + 28, 0);
    }
}
