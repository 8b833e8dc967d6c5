//! An entry of the names of properties.
ghost use Rattle.std.specs.Prelude.{◌≡◌, ◌≤◌, ◌<◌, ◌^◌, ◌++◌, OnOk, IsTrue};
ghost use Rattle.named_props.specs.Entries.{bytes_of, entry_of, in_range, word_of};

use pst_base::{u16_at, u32_at};
use std::alloc::AllocError;

/// The greatest index that a property may have: its id is 8000h more, and FFFFh is none.
pub(crate) const GREATEST_INDEX: u16 = 32766;
/// How many bytes an entry has.
pub(crate) const ENTRY_LEN: usize = 8;

/// The name of one property ([MS-PST] 2.4.7.1). `id` is the number that is the name, or where `string` is true the place of a string among the strings; `guid` is the index of the GUID under which it is one, and `index` that of the property, whose id is 8000h more.
#[derive(Clone, Copy, Debug, PartialEq, Eq)]
pub struct NameEntry {
    pub id: u32,
    pub string: bool,
    pub guid: u16,
    pub index: u16,
}

impl NameEntry {
    /// The entry in 8 bytes.
    #[tactic(auto, unfolding(crate::specs::Entries::entry_of))]
    pub(crate) fn from_bytes(bytes: &[u8; 8]) -> NameEntry
        ensures entry { result ≡ entry_of bytes.now }
        ensures guid { result.guid ≤ 32767 }
        ensures number { result.id < 2 ^ 32 }
    {
        let word = u16_at(bytes, 4);
        NameEntry {
            id: u32_at(bytes, 0),
            string: word % 2 == 1,
            guid: word / 2,
            index: u16_at(bytes, 6),
        }
    }

    /// The word of the GUID's index, with bit 0 for a string.
    pub(crate) fn word(&self) -> u16
        requires { self.now.guid ≤ 32767 }
        ensures { result ≡ word_of self.now }
    {
        self.guid * 2 + u16::from(self.string)
    }

    /// Puts the 8 bytes of the entry at the end. An `Err` leaves a vector that is to be given up.
    #[tactic(auto, unfolding(crate::specs::Entries::bytes_of))]
    pub(crate) fn push_to(&self, bytes: &mut Vec<u8>) -> Result<(), AllocError>
        requires { IsTrue (in_range self.now) }
        ensures bytes { OnOk result (bytes.new.items ≡ bytes.old.items ++ bytes_of self.now) }
        ensures fits { self.now.id < 2 ^ 32 }
    {
        bytes.extend_from_slice(&self.id.to_le_bytes())?;
        bytes.extend_from_slice(&self.word().to_le_bytes())?;
        bytes.extend_from_slice(&self.index.to_le_bytes())
    }
}
