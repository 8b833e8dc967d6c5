//! Writing names.
ghost use Rattle.std.specs.Prelude.{◌≡◌, ◌==◌, IfOk, IsTrue, Some, length, true};
ghost use Rattle.std.specs.List.{flat_map, list_all};
ghost use Rattle.named_props.specs.Entries.{bytes_of, fits_id, in_range};
ghost use Rattle.named_props.specs.Holding.{IsWritable, names_of, written};

use crate::entry::NameEntry;
use crate::names::Names;
use crate::values::binary;
use mapi_values::Props;
use mapi_values::tags::{PID_TAG_NAMEID_STREAM_ENTRY, PID_TAG_NAMEID_STREAM_GUID};
use std::alloc::{AllocError, Global};

/// The bytes of GUIDs, one after the other.
fn guid_bytes(alloc: Global, guids: &[[u8; 16]]) -> Result<Vec<u8>, AllocError>
    ensures bytes { IfOk result (λ v. v.items ≡ flat_map (λ g. g) guids.now) }
    ensures each { IfOk result (λ _. list_all (λ g. length g == 16) guids.now ≡ true) }
{
    let mut bytes = Vec::with_capacity(alloc, guids.as_flattened().len())?;
    for guid in guids {
        bytes.extend_from_slice(guid)?;
    }
    Ok(bytes)
}

/// The bytes of entries, one after the other.
fn entry_bytes(alloc: Global, entries: &[NameEntry]) -> Result<Vec<u8>, AllocError>
    requires { IsTrue (list_all in_range entries.now) }
    ensures bytes { IfOk result (λ v. v.items ≡ flat_map bytes_of entries.now) }
    ensures fit { IfOk result (λ _. list_all fits_id entries.now ≡ true) }
{
    let mut bytes = Vec::new(alloc);
    for entry in entries {
        entry.push_to(&mut bytes)?;
    }
    Ok(bytes)
}

/// The values that hold names ([MS-PST] 2.4.7): both streams, and the other values, among which buckets are binary and none is a stream. They hold the same names again. Each stream has fewer than 2^32 bytes.
pub fn write_names(alloc: Global, n: &Names) -> Result<Props, AllocError>
    requires { IsWritable n.now }
    ensures values { IfOk result (λ p. p ≡ written n.now) }
    ensures reads { IfOk result (λ p. names_of p ≡ Some n.now) }
{
    let guids = guid_bytes(alloc, n.guids.as_slice())?;
    let entries = entry_bytes(alloc, n.entries.as_slice())?;
    let mut props = n.props.copy(alloc)?;
    props.put(binary(PID_TAG_NAMEID_STREAM_ENTRY.id, entries))?;
    props.put(binary(PID_TAG_NAMEID_STREAM_GUID.id, guids))?;
    Ok(props)
}
