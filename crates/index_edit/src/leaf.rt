//! A leaf's bytes with a record put or left out.
ghost use Rattle.std.specs.Prelude.{◌≡◌, ◌≤◌, ◌<◌, ◌^◌, ◌+◌, ◌*◌, ◌/◌, ◌++◌, ◌∷◌, [], ℕ, List, Some, length, take, drop, IfOk, IfSome};
ghost use Rattle.byteorder.specs.Endian.{little_bytes};
ghost use Rattle.bth_tree.specs.Records.{ordered};
ghost use Rattle.index_edit.specs.Edits.{CutsHalves, FitLeaves, HoldLeaves, LeavesOut};

use crate::bytes::{ROW, row, span_of, spliced};
use pst_base::u32_at;
use std::alloc::{AllocError, Global};

/// How many bytes an item has at most ([MS-PST] 2.3.1).
pub const MOST: usize = 3580;

/// What stands in place of a leaf to which a record was put.
#[derive(Debug, Drop)]
pub enum NewLeaves {
    /// One leaf.
    One(Vec<u8>),
    /// The leaf as it is, with its first key, and the record alone behind it.
    Behind(u32),
    /// Two leaves, one behind the other.
    Halves(Vec<u8>, Vec<u8>),
}

/// A copy of some bytes.
fn copied(alloc: Global, x: &[u8]) -> Result<Vec<u8>, AllocError>
    ensures { IfOk result (λ y. y.items ≡ x.now) }
{
    let mut out = Vec::new(alloc);
    out.extend_from_slice(x)?;
    Ok(out)
}

/// A leaf cut in the middle.
fn halves(alloc: Global, y: &[u8]) -> Result<NewLeaves, AllocError>
    requires low { 16 ≤ length y.now }
    requires high { length y.now ≤ 3588 }
    ensures fit { IfOk result FitLeaves }
    ensures cut { IfOk result (CutsHalves y.now) }
{
    let middle = ROW * (y.len() / 16);
    Ok(NewLeaves::Halves(copied(alloc, &y[..middle])?, copied(alloc, &y[middle..])?))
}

/// The leaves that stand in place of a leaf once a record is put. Where there is no room, a key above all others leaves the leaf full, and else it is cut in the middle.
pub fn new_leaves(alloc: Global, x: &[u8], key: u32, entry: u32) -> Result<NewLeaves, AllocError>
    requires { length x.now ≤ 3580 }
    ensures fit { IfOk result FitLeaves }
    ensures hold { IfOk result (λ leaves. (rs : List (ℕ × List ℕ)) → ordered 4 4 0 (2 ^ 32) x.now ≡ Some rs → HoldLeaves (key, little_bytes 4 entry) rs leaves) }
{
    let span = span_of(x, key);
    let y = spliced(alloc, x, span.from, span.to, &row(key, entry))?;
    if y.len() <= MOST {
        return Ok(NewLeaves::One(y));
    }
    if ROW * span.from == x.len() {
        return Ok(NewLeaves::Behind(u32_at(x, 0)));
    }
    halves(alloc, y.as_slice())
}

/// A leaf without the record of a key; `None` where it has none.
pub fn leaf_without(alloc: Global, x: &[u8], key: u32) -> Result<Option<Vec<u8>>, AllocError>
    ensures size { IfOk result (λ out. IfSome out (λ y. length y.items ≤ length x.now)) }
    ensures out { IfOk result (λ out. (rs : List (ℕ × List ℕ)) → ordered 4 4 0 (2 ^ 32) x.now ≡ Some rs → LeavesOut key rs out) }
{
    let span = span_of(x, key);
    if span.from == span.to {
        return Ok(None);
    }
    Ok(Some(spliced(alloc, x, span.from, span.to, &[])?))
}
