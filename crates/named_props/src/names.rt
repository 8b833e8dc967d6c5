//! The names of properties, and which name a property has.
ghost use Rattle.std.specs.Prelude.{◌≡◌};
ghost use Rattle.named_props.specs.Finding.{is_named, is_property_named, name_at};

use crate::entries::NameEntries;
use crate::entry::NameEntry;
use crate::guids::Guids;
use mapi_values::Props;
use mapi_values::tags::FIRST_NAMED_ID;

/// The names of properties: the GUIDs of the stream, the entries, and the other values of the node.
#[derive(Debug, Drop)]
pub struct Names {
    pub guids: Guids,
    pub entries: NameEntries,
    pub props: Props,
}

impl Names {
    /// Whether the entry is that of the number `id` under a GUID.
    #[tactic(auto, unfolding(crate::specs::Finding::is_named))]
    fn is_named(&self, guid: &[u8; 16], id: u32, entry: &NameEntry) -> bool
        ensures { result ≡ is_named self.now.guids guid.now id entry.now }
    {
        !entry.string
            && entry.id == id
            && match self.guids.get(entry.guid) {
                Some(found) => found == *guid,
                None => false,
            }
    }

    /// The id of the property whose name is the number `id` under a GUID, if there is one: that of the first such entry.
    pub fn find(&self, guid: &[u8; 16], id: u32) -> Option<u16>
        ensures { result ≡ name_at self.now.guids self.now.entries guid.now id }
    {
        for entry in self.entries.as_slice() {
            if self.is_named(guid, id, entry) {
                return Some(FIRST_NAMED_ID + entry.index);
            }
        }
        None
    }

    /// Whether a name, of a number or of a string, is that of the property with this id. Only ids from 8000h on have names.
    pub fn has_name(&self, property: u16) -> bool
        ensures { result ≡ is_property_named self.now.entries property }
    {
        self.entries.as_slice().iter().any(|entry| u32::from(FIRST_NAMED_ID)
            + u32::from(entry.index)
            == u32::from(property))
    }
}
