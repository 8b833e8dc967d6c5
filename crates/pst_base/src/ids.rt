//! Ids of nodes and blocks, as they stand in the file's trees.
ghost use Rattle.std.specs.Prelude.{◌≡◌, ◌<◌, ◌^◌, ◌↔◌, IsTrue};
ghost use Rattle.pst_base.specs.Ids.{kind_of, index_of, nid_of, key_of, IsInternal};

/// The id of a node ([MS-PST] 2.2.2.1): a kind in its low 5 bits, and an index in the high 27.
#[derive(Clone, Copy, Debug, PartialEq, Eq, PartialOrd, Ord, Hash)]
pub struct Nid {
    pub bits: u32,
}

/// The id of a block or a page ([MS-PST] 2.2.2.2).
#[derive(Clone, Copy, Debug, PartialEq, Eq, PartialOrd, Ord, Hash)]
pub struct Bid {
    pub bits: u64,
}

/// A reference to a page or a block: its id, and where it begins in the file ([MS-PST] 2.2.2.4).
#[derive(Clone, Copy, Debug, PartialEq, Eq, PartialOrd, Ord, Hash)]
pub struct Bref {
    pub bid: Bid,
    pub ib: u64,
}

/// The id of the node of a kind, below 32, with an index, below 2^27.
pub fn make_nid(kind: u8, index: u32) -> Nid
    requires kind { kind < 32 }
    requires index { index < 2 ^ 27 }
    ensures { result.bits ≡ nid_of kind index }
{
    Nid {
        bits: index * 32 + u32::from(kind),
    }
}

impl Nid {
    /// The kind, from 0 to 31.
    pub fn kind(self) -> u8
        ensures { result ≡ kind_of self.bits }
    {
        (self.bits % 32) as u8
    }

    /// The index, below 2^27.
    pub fn index(self) -> u32
        ensures { result ≡ index_of self.bits }
    {
        self.bits / 32
    }
}

impl Bid {
    /// Whether bit 1 says that the block is an internal one, which holds ids of other blocks.
    pub fn internal(self) -> bool
        ensures { IsTrue result ↔ IsInternal self.bits }
    {
        self.bits / 2 % 2 == 1
    }

    /// The id with bit 0 cleared, by which blocks are compared.
    pub fn key(self) -> u64
        ensures { result ≡ key_of self.bits }
    {
        self.bits - self.bits % 2
    }
}
