//! Reading names.
ghost use Rattle.std.specs.Prelude.{◌≡◌, IfOk, IsTrue, map, true};
ghost use Rattle.std.specs.List.{list_all};
ghost use Rattle.pst_base.specs.Stops.{Finds};
ghost use Rattle.named_props.specs.Entries.{all_in_range, entry_of, fits_id, in_range};
ghost use Rattle.named_props.specs.Holding.{IsWritable, names_of};

use crate::entries::NameEntries;
use crate::entry::{GREATEST_INDEX, NameEntry};
use crate::guids::Guids;
use crate::names::Names;
use crate::values::{bytes_at, have_their_kinds};
use mapi_values::Props;
use mapi_values::tags::{PID_TAG_NAMEID_STREAM_ENTRY, PID_TAG_NAMEID_STREAM_GUID};
use pst_base::MemOr;
use std::alloc::Global;

/// The values aren't of the form that names have.
#[derive(Clone, Copy, Debug, PartialEq, Eq)]
pub struct NamesFault;

/// The entries in 8 bytes each, unless an index is above the greatest.
fn read_entries(alloc: Global, chunks: &[[u8; 8]]) -> Result<Vec<NameEntry>, MemOr<NamesFault>>
    ensures exact { Finds (λ v. v.items) result (all_in_range (map entry_of chunks.now)) }
    ensures range { IfOk result (λ v. IsTrue (list_all in_range v.items)) }
    ensures numbers { IfOk result (λ v. list_all fits_id v.items ≡ true) }
{
    let mut entries = Vec::with_capacity(alloc, chunks.len())?;
    for chunk in chunks {
        let entry = NameEntry::from_bytes(chunk);
        if entry.index > GREATEST_INDEX {
            return Err(MemOr::Refused(NamesFault));
        }
        entries.push(entry)?;
    }
    Ok(entries)
}

/// The names that the values of a node hold ([MS-PST] 2.4.7). A refusal comes exactly where they don't have the form: a stream or a bucket isn't binary, a stream isn't whole GUIDs or whole entries, or an entry has an index that no property may have. A stream that isn't there is empty.
#[tactic(auto, unfolding(crate::specs::Holding::is_form, crate::specs::Holding::names_of))]
pub fn read_names(alloc: Global, p: &Props) -> Result<Names, MemOr<NamesFault>>
    ensures exact { Finds (λ n. n) result (names_of p.now) }
    ensures writable { IfOk result IsWritable }
    ensures numbers { IfOk result (λ n. list_all fits_id n.entries ≡ true) }
{
    let (guids, guids_rest) = bytes_at(p, PID_TAG_NAMEID_STREAM_GUID.id).as_chunks::<16>();
    let (entries, entries_rest) = bytes_at(p, PID_TAG_NAMEID_STREAM_ENTRY.id).as_chunks::<8>();
    if !have_their_kinds(p.values()) || guids_rest.len() > 0 || entries_rest.len() > 0 {
        return Err(MemOr::Refused(NamesFault));
    }
    let entries = NameEntries::from_vec(read_entries(alloc, entries)?);
    let guids = Guids::from_vec(Vec::from_slice(alloc, guids)?);
    let mut props = p.copy(alloc)?;
    props.remove(PID_TAG_NAMEID_STREAM_GUID.id);
    props.remove(PID_TAG_NAMEID_STREAM_ENTRY.id);
    Ok(Names {
        guids,
        entries,
        props,
    })
}
