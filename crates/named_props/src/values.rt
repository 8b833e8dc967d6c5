//! The values that hold names.
ghost use Rattle.std.specs.Prelude.{◌≡◌, ◌<◌, ◌^◌, length, ◌||◌};
ghost use Rattle.std.specs.List.{list_all};
ghost use Rattle.named_props.specs.Holding.{binary, bytes_at, is_binary_if, is_bucket, is_stream};

use crate::buckets::is_bucket;
use mapi_values::tags::{PID_TAG_NAMEID_STREAM_ENTRY, PID_TAG_NAMEID_STREAM_GUID, PTYP_BINARY};
use mapi_values::{Props, Tag, Value};
use pst_base::Bytes;

/// The bytes of the value with an id, none where there is no such value.
pub(crate) fn bytes_at(props: &Props, id: u16) -> &[u8]
    ensures value { result.now ≡ bytes_at id props.now }
    ensures len { length result.now ≡ length (bytes_at id props.now) }
{
    match props.get(id) {
        Some(value) => value.bytes(),
        None => &[],
    }
}

/// The binary value with this id and these bytes.
pub(crate) fn binary(id: u16, bytes: Vec<u8>) -> Value
    requires { length bytes.items < 2 ^ 32 }
    ensures { result ≡ binary id bytes.items }
{
    let kind = PTYP_BINARY;
    Value::new(Tag { id, kind }, Bytes::from_vec(bytes))
}

/// Whether an id is that of the stream of GUIDs or of entries.
fn is_stream(id: u16) -> bool
    ensures { result ≡ is_stream id }
{
    id == PID_TAG_NAMEID_STREAM_GUID.id || id == PID_TAG_NAMEID_STREAM_ENTRY.id
}

/// Whether a value is binary, if it is a stream or a bucket.
fn has_its_kind(value: &Value) -> bool
    ensures { result ≡ is_binary_if (λ id. is_stream id || is_bucket id) value.now }
{
    let id = value.id();
    !(is_stream(id) || is_bucket(id)) || value.kind() == PTYP_BINARY
}

/// Whether each stream and each bucket is binary.
pub(crate) fn have_their_kinds(values: &[Value]) -> bool
    ensures { result ≡ list_all (is_binary_if (λ id. is_stream id || is_bucket id)) values.now }
{
    values.iter().all(has_its_kind)
}
