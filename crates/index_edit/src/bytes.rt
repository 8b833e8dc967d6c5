//! Records of a key and an entry of 4 bytes each, in the bytes of an item.
ghost use Rattle.std.specs.Prelude.{◌≡◌, ◌≤◌, ◌<◌, ◌^◌, ◌+◌, ◌*◌, ◌++◌, ◌∷◌, [], ℕ, List, Some, length, take, drop, IfOk, IfSome};
ghost use Rattle.pst_base.specs.Fields.{number_at};
ghost use Rattle.byteorder.specs.Endian.{little_bytes};
ghost use Rattle.bth_tree.specs.Records.{entry_of, whole};
ghost use Rattle.index_edit.specs.Rows.{as_number, IsPlace, IsSpan, rows};

use pst_base::u32_at;
use std::alloc::{AllocError, Global};

/// How many bytes a record has.
pub const ROW: usize = 8;

/// A key and an entry, one behind the other.
fn joined(key: u32, entry: u32) -> [u8; 8]
    ensures { result ≡ little_bytes 4 key ++ little_bytes 4 entry }
{
    let (k, e) = (key.to_le_bytes(), entry.to_le_bytes());
    [k[0], k[1], k[2], k[3], e[0], e[1], e[2], e[3]]
}

/// The bytes of a record.
pub fn row(key: u32, entry: u32) -> [u8; 8]
    ensures row { whole 4 4 result ≡ Some ((key, little_bytes 4 entry) ∷ []) }
    ensures size { length result ≡ 8 }
{
    joined(key, entry)
}

/// The bytes with others in place of the records from one place up to another.
pub fn spliced(
    alloc: Global,
    x: &[u8],
    from: usize,
    to: usize,
    new: &[u8],
) -> Result<Vec<u8>, AllocError>
    requires order { from ≤ to }
    requires within { 8 * to ≤ length x.now }
    ensures { IfOk result (λ y. y.items ≡ take (8 * from) x.now ++ (new.now ++ drop (8 * to) x.now)) }
{
    let mut out = Vec::new(alloc);
    out.extend_from_slice(&x[..ROW * from])?;
    out.extend_from_slice(new)?;
    out.extend_from_slice(&x[ROW * to..])?;
    Ok(out)
}

/// The bytes behind the first record.
fn behind_row(b: &[u8]) -> &[u8]
    requires { 8 ≤ length b.now }
    ensures { result.now ≡ drop 8 b.now }
{
    &b[ROW..]
}

/// The records from a place up to another.
#[derive(Clone, Copy, Debug)]
pub struct Span {
    pub from: usize,
    pub to: usize,
}

/// Where the record with a key stands, or would stand.
pub fn span_of(x: &[u8], key: u32) -> Span
    ensures span { IsSpan key (rows x.now) result.from result.to }
    ensures order { result.from ≤ result.to }
    ensures within { 8 * result.to ≤ length x.now }
{
    let mut rest = x;
    let mut from = 0;
    while rest.len() >= ROW {
        let here = u32_at(rest, 0);
        if here == key {
            return Span { from, to: from + 1 };
        }
        if here > key {
            return Span { from, to: from };
        }
        rest = behind_row(rest);
        from += 1;
    }
    Span { from, to: from }
}

/// The entry of a key, if there is one.
pub fn entry_in(x: &[u8], key: u32) -> Option<u32>
    ensures { result ≡ as_number (entry_of key (rows x.now)) }
{
    let mut rest = x;
    while rest.len() >= ROW {
        if u32_at(rest, 0) == key {
            return Some(u32_at(rest, 4));
        }
        rest = behind_row(rest);
    }
    None
}

/// A pair of an inner item: its place, and the heap id of its child.
#[derive(Clone, Copy, Debug)]
pub struct Place {
    pub index: usize,
    pub child: u32,
}

/// The pair that stands first in some bytes, as that of a place.
fn first_place(rest: &[u8], index: usize) -> Place
    requires { 8 ≤ length rest.now }
    ensures index { result.index ≡ index }
    ensures child { result.child ≡ number_at 4 4 rest.now }
{
    Place {
        index,
        child: u32_at(rest, 4),
    }
}

/// The pair below which a key belongs: the last whose key isn't above it, or else the first. `None` where there is no pair.
pub fn place_of(x: &[u8], key: u32) -> Option<Place>
    ensures place { IsPlace key (rows x.now) result }
    ensures within { IfSome result (λ place. 8 * (place.index + 1) ≤ length x.now) }
{
    if x.len() < ROW {
        return None;
    }
    let mut rest = x;
    let mut index = 0;
    while rest.len() >= 2 * ROW {
        if u32_at(rest, 8) > key {
            return Some(first_place(rest, index));
        }
        rest = behind_row(rest);
        index += 1;
    }
    Some(first_place(rest, index))
}
