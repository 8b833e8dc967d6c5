//! The buckets of entries, by which other programs find names ([MS-PST] 2.4.7.5).
ghost use Rattle.std.specs.Prelude.{◌≡◌, ◌+◌, ◌++◌, IfOk, IsTrue, false, length};
ghost use Rattle.named_props.specs.Entries.{bytes_of, in_range};
ghost use Rattle.named_props.specs.Holding.{binary, bytes_at, is_bucket};
ghost use Rattle.named_props.specs.Adding.{bucket_of, is_too_long};

use crate::entry::{ENTRY_LEN, NameEntry};
use crate::values::{binary, bytes_at};
use mapi_values::{Props, Value};
use std::alloc::{AllocError, Global};

/// The id of the first bucket.
const FIRST_BUCKET: u16 = 0x1000;
/// How many buckets there are.
const BUCKETS: u16 = 251;

/// Whether an id is that of a bucket.
pub(crate) fn is_bucket(id: u16) -> bool
    ensures { result ≡ is_bucket id }
{
    FIRST_BUCKET <= id && id < FIRST_BUCKET + BUCKETS
}

/// The id of the bucket of an entry.
pub(crate) fn bucket_of(entry: &NameEntry) -> u16
    requires { IsTrue (in_range entry.now) }
    ensures { result ≡ bucket_of entry.now }
{
    FIRST_BUCKET + ((entry.id ^ u32::from(entry.word())) % u32::from(BUCKETS)) as u16
}

/// The value that is the bucket of an entry, with the entry at its end.
pub(crate) fn bucket_with(
    alloc: Global,
    entry: &NameEntry,
    props: &Props,
) -> Result<Value, AllocError>
    requires range { IsTrue (in_range entry.now) }
    requires short { is_too_long (length (bytes_at (bucket_of entry.now) props.now) + 8) ≡ false }
    ensures { IfOk result (λ v. v ≡ binary (bucket_of entry.now) (bytes_at (bucket_of entry.now) props.now ++ bytes_of entry.now)) }
{
    let id = bucket_of(entry);
    let old = bytes_at(props, id);
    let mut bytes = Vec::with_capacity(alloc, old.len() + ENTRY_LEN)?;
    bytes.extend_from_slice(old)?;
    entry.push_to(&mut bytes)?;
    Ok(binary(id, bytes))
}
