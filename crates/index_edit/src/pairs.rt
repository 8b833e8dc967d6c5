//! Pairs of a key and a heap id, which name leaves.
ghost use Rattle.std.specs.Prelude.{◌≡◌, ◌≤◌, ◌++◌, Some, length, IfOk};
ghost use Rattle.bth_tree.specs.Records.{whole};
ghost use Rattle.index_edit.specs.Pairs.{pairs_of};

use crate::bytes::row;
use std::alloc::{AllocError, Global};

/// A leaf's first key and its heap id.
#[derive(Clone, Copy, Debug)]
pub struct Pair {
    pub key: u32,
    pub child: u32,
}

/// The leaves that stand in place of one.
#[derive(Clone, Copy, Debug)]
pub enum Pairs {
    Single(Pair),
    Double(Pair, Pair),
}

/// Bytes, and others behind them.
fn both(alloc: Global, x: &[u8], y: &[u8]) -> Result<Vec<u8>, AllocError>
    ensures { IfOk result (λ z. z.items ≡ x.now ++ y.now) }
{
    let mut out = Vec::new(alloc);
    out.extend_from_slice(x)?;
    out.extend_from_slice(y)?;
    Ok(out)
}

/// The bytes of pairs.
pub fn spell(alloc: Global, pairs: Pairs) -> Result<Vec<u8>, AllocError>
    ensures pairs { IfOk result (λ x. whole 4 4 x.items ≡ Some (pairs_of pairs)) }
    ensures low { IfOk result (λ x. 8 ≤ length x.items) }
    ensures high { IfOk result (λ x. length x.items ≤ 16) }
{
    match pairs {
        Pairs::Single(p) => both(alloc, &row(p.key, p.child), &[]),
        Pairs::Double(p, q) => both(alloc, &row(p.key, p.child), &row(q.key, q.child)),
    }
}
