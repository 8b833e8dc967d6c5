//! Adding names.
ghost use Rattle.std.specs.Prelude.{◌≡◌, ℕ, IfErr, IfOk, IfSome, IsTrue, MatchOption, OnErr, OnOk, false, true};
ghost use Rattle.named_props.specs.Entries.{in_range};
ghost use Rattle.named_props.specs.Holding.{IsWritable, binary_buckets};
ghost use Rattle.named_props.specs.Finding.{name_at};
ghost use Rattle.named_props.specs.Adding.{Begins, FindsOrAdds, RefusesFull, is_full, lengthens_past, new_entry, next_index, with_name};

use crate::buckets::{bucket_of, bucket_with};
use crate::entries::NameEntries;
use crate::entry::{ENTRY_LEN, GREATEST_INDEX, NameEntry};
use crate::guids::GUID_LEN;
use crate::names::Names;
use crate::values::bytes_at;
use mapi_values::tags::FIRST_NAMED_ID;
use pst_base::MemOr;
use std::alloc::{AllocError, Global};

/// There is no room for another name: the index of its property or of its GUID would be above the greatest, or a value would be longer than a value may be.
#[derive(Clone, Copy, Debug, PartialEq, Eq)]
pub struct NamesFull;

/// The greatest index that a GUID may have.
const GREATEST_GUID: usize = 32767;
/// A value has fewer bytes ([MS-PST] 2.3.3.3).
const TOO_LONG: usize = 0x1_0000_0000;

/// The index after the greatest of a property, or 0 where there is none.
fn next_index(entries: &NameEntries) -> u16
    ensures { result ≡ next_index entries.now }
{
    let mut next = 0;
    for entry in entries.as_slice() {
        next = next.max(entry.index + 1);
    }
    next
}

impl Names {
    /// Whether one of the values that an entry under a GUID would lengthen would be too long.
    #[tactic(auto, unfolding(crate::specs::Adding::lengthens_past))]
    fn lengthens_past(&self, guid: &[u8; 16], entry: &NameEntry) -> bool
        requires { IsTrue (in_range entry.now) }
        ensures { result ≡ lengthens_past self.now guid.now entry.now }
    {
        let bucket = bytes_at(&self.props, bucket_of(entry));
        self.guids.index_of(guid).is_none() && self.guids.len() + 1 >= TOO_LONG / GUID_LEN
            || self.entries.len() + 1 >= TOO_LONG / ENTRY_LEN
            || bucket.len() + ENTRY_LEN >= TOO_LONG
    }

    /// The entry that the number `id` under a GUID gets as a new name, if there is room for it.
    #[tactic(auto, unfolding(crate::specs::Adding::is_full))]
    fn new_entry(&self, guid: &[u8; 16], id: u32) -> Option<NameEntry>
        ensures room { MatchOption result (is_full self.now guid.now id ≡ true)
            (λ _. is_full self.now guid.now id ≡ false) }
        ensures entry { IfSome result (λ e. e ≡ new_entry self.now guid.now id) }
        ensures range { IfSome result (λ e. IsTrue (in_range e)) }
    {
        let index = next_index(&self.entries);
        let place = self.guids.index_of(guid).unwrap_or(self.guids.len() + 3);
        if index > GREATEST_INDEX || place > GREATEST_GUID {
            return None;
        }
        let entry = NameEntry {
            id,
            string: false,
            guid: place as u16,
            index,
        };
        if self.lengthens_past(guid, &entry) {
            return None;
        }
        Some(entry)
    }

    /// Puts an entry at the ends where it comes, and its GUID if that is new. An `Err` may leave the first of these done, but no value changed.
    fn try_add(&mut self, alloc: Global, guid: [u8; 16], entry: NameEntry) -> Result<(), AllocError>
        requires range { IsTrue (in_range entry) }
        requires room { lengthens_past self.old guid entry ≡ false }
        ensures ok { OnOk result (self.new ≡ with_name self.old guid entry) }
        ensures err { OnErr result (Begins self.old self.new) }
    {
        let bucket = bucket_with(alloc, &entry, &self.props)?;
        if self.guids.index_of(&guid).is_none() {
            self.guids.push(guid)?;
        }
        self.entries.push(entry)?;
        self.props.put(bucket)
    }

    /// Adds an entry and its GUID. An `Err` changes nothing.
    fn add(&mut self, alloc: Global, guid: [u8; 16], entry: NameEntry) -> Result<(), AllocError>
        requires range { IsTrue (in_range entry) }
        requires room { lengthens_past self.old guid entry ≡ false }
        ensures ok { OnOk result (self.new ≡ with_name self.old guid entry) }
        ensures err { OnErr result (self.new ≡ self.old) }
    {
        let (guids, entries) = (self.guids.len(), self.entries.len());
        let added = self.try_add(alloc, guid, entry);
        if added.is_err() {
            self.guids.truncate(guids);
            self.entries.truncate(entries);
        }
        added
    }

    /// The id of the property whose name is the number `id` under a GUID. A new name is added: its property has the index after the greatest, the GUID comes to the end of the stream where it has no index, and the entry to the ends of the stream and of its bucket. `NamesFull` comes exactly where the name is new and there is no room for it. An `Err` changes nothing.
    pub fn lookup_or_add(
        &mut self,
        alloc: Global,
        guid: [u8; 16],
        id: u32,
    ) -> Result<u16, MemOr<NamesFull>>
        requires { IsTrue (binary_buckets self.old.props) }
        ensures ok { let found = name_at self.old.guids self.old.entries guid id in
            IfOk result (λ property. FindsOrAdds found self.old guid id property self.new) }
        // A name that is there takes no memory.
        ensures there { (property : ℕ) → name_at self.old.guids self.old.entries guid id ≡ Some property
            → result ≡ Ok property }
        ensures full { IfErr result (λ e. RefusesFull e self.old guid id) }
        ensures err { OnErr result (self.new ≡ self.old) }

        // What writing asks for stays.
        ensures buckets { IsTrue (binary_buckets self.new.props) }
        ensures writable { IsWritable self.old → IsWritable self.new }
    {
        if let Some(property) = self.find(&guid, id) {
            return Ok(property);
        }
        let Some(entry) = self.new_entry(&guid, id) else {
            return Err(MemOr::Refused(NamesFull));
        };
        self.add(alloc, guid, entry)?;
        Ok(FIRST_NAMED_ID + entry.index)
    }
}
