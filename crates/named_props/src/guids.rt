//! A list of GUIDs.
ghost use Rattle.std.specs.Prelude.{◌≡◌, ◌∷◌, ◌++◌, ◌<◌, ◌^◌, [], IfSome, OnErr, OnOk, length, take};
ghost use Rattle.std.specs.List.{position};
ghost use Rattle.std.specs.Str.{bytes_eq};
ghost use Rattle.named_props.specs.Finding.{guid_at};
ghost use Rattle.named_props.specs.Adding.{index_in};

use std::alloc::AllocError;
use std::marker::Model;

/// How many bytes a GUID has.
pub(crate) const GUID_LEN: usize = 16;

/// The GUID with the index 1 in every file ([MS-OXPROPS] 1.3.2).
pub const PS_MAPI: [u8; 16] = [
    0x28, 0x03, 0x02, 0x00, 0x00, 0x00, 0x00, 0x00, 0xC0, 0x00, 0x00, 0x00, 0x00, 0x00, 0x00, 0x46,
];

/// The GUID with the index 2 in every file.
pub const PS_PUBLIC_STRINGS: [u8; 16] = [
    0x29, 0x03, 0x02, 0x00, 0x00, 0x00, 0x00, 0x00, 0xC0, 0x00, 0x00, 0x00, 0x00, 0x00, 0x00, 0x46,
];

/// The GUIDs of a stream, which have the indices from 3 on ([MS-PST] 2.4.7.2). Contracts see the list.
#[derive(Debug, Drop)]
pub struct Guids {
    items: Vec<[u8; 16]>,
}

impl Model for Guids {
    ghost use Rattle.std.specs.Prelude.{ℕ, List};

    ghost Value = { List (List ℕ) };

    ghost view = { λ g. g.items.items };
}

impl Guids {
    /// The GUIDs of a vector, which it keeps.
    pub fn from_vec(items: Vec<[u8; 16]>) -> Guids
        ensures { result ≡ items.items }
    {
        Guids { items }
    }

    /// The vector that keeps the GUIDs.
    pub fn into_vec(self) -> Vec<[u8; 16]>
        ensures { result.items ≡ self }
    {
        self.items
    }

    /// The GUIDs.
    pub fn as_slice(&self) -> &[[u8; 16]]
        ensures value { result.now ≡ self.now }
        ensures len { length result.now ≡ length self.now }
    {
        self.items.as_slice()
    }

    /// How many GUIDs there are.
    pub fn len(&self) -> usize
        ensures value { result ≡ length self.now }
        ensures small { result < 2 ^ 63 }
    {
        self.items.len()
    }

    /// The GUID with an index: none with 0, the two that every file knows with 1 and 2, those of the list from 3 on.
    #[tactic(auto, unfolding(crate::specs::Finding::guid_at))]
    pub fn get(&self, index: u16) -> Option<[u8; 16]>
        ensures { result ≡ guid_at self.now index }
    {
        match index {
            0 => None,
            1 => Some(PS_MAPI),
            2 => Some(PS_PUBLIC_STRINGS),
            _ => self.items.get(usize::from(index - 3)).copied(),
        }
    }

    /// The first place of a GUID in the list, if it is there.
    fn place_of(&self, guid: &[u8; 16]) -> Option<usize>
        ensures place { result ≡ position (λ g. bytes_eq g guid.now) self.now }
        ensures small { IfSome result (λ i. i < 2 ^ 63) }
    {
        self.items.iter().position(|g| *g == *guid)
    }

    /// The index of a GUID, if it has one.
    #[tactic(auto, unfolding(crate::specs::Adding::index_in))]
    pub fn index_of(&self, guid: &[u8; 16]) -> Option<usize>
        ensures { result ≡ index_in self.now guid.now }
    {
        if PS_MAPI == *guid {
            return Some(1);
        }
        if PS_PUBLIC_STRINGS == *guid {
            return Some(2);
        }
        Some(3 + self.place_of(guid)?)
    }

    /// Puts a GUID at the end. An `Err` changes nothing.
    pub fn push(&mut self, guid: [u8; 16]) -> Result<(), AllocError>
        ensures ok { OnOk result (self.new ≡ self.old ++ guid ∷ []) }
        ensures err { OnErr result (self.new ≡ self.old) }
    {
        self.items.push(guid)?;
        Ok(())
    }

    /// Keeps the first `len` GUIDs.
    pub fn truncate(&mut self, len: usize)
        ensures { self.new ≡ take len self.old }
    {
        self.items.truncate(len);
    }
}
