//! The bytes and the blocks of values.
ghost use Rattle.std.specs.Prelude.{ℕ, ◌≡◌, ◌+◌, ◌/◌, ◌^◌, ◌≤◌, min};
ghost use Rattle.write_limits.specs.Space.{cells_blocks, long_blocks, rows_space, short_bytes, values_blocks, values_bytes};

use crate::sums::add;
use mapi_values::{Props, Value};

/// Where counts of bytes end.
const MANY: u128 = 1 << 100;

/// A sum of bytes with so many more.
fn add_bytes(total: u128, more: u128) -> u128
    requires { total ≤ 2 ^ 100 }
    ensures { result ≡ min (total + more) (2 ^ 100) }
{
    (total + more.min(MANY)).min(MANY)
}

/// The bytes of a value that stands in a heap.
#[tactic(auto, unfolding(crate::specs::Space::short_bytes))]
fn short_bytes(value: &Value) -> usize
    ensures { result ≡ short_bytes value.now }
{
    if value.len() > 3580 { 0 } else { value.len() }
}

/// The blocks of a value that is too long for a heap.
#[tactic(auto, unfolding(crate::specs::Space::long_blocks))]
fn long_blocks(value: &Value) -> u64
    ensures { result ≡ long_blocks value.now }
{
    if value.len() > 3580 {
        value.len() as u64 / 8176 + 3
    } else {
        0
    }
}

/// A sum with the bytes of these values that stand in a heap.
pub(crate) fn add_values_bytes(total: u128, values: &[Value]) -> u128
    requires { total ≤ 2 ^ 100 }
    ensures { result ≡ min (total + values_bytes values.now) (2 ^ 100) }
{
    let mut total = total;
    for value in values {
        total = add_bytes(total, short_bytes(value) as u128);
    }
    total
}

/// A sum with the blocks of the longer ones of these values.
pub(crate) fn add_values_blocks(total: u64, values: &[Value]) -> u64
    requires { total ≤ 2 ^ 60 }
    ensures { result ≡ min (total + values_blocks values.now) (2 ^ 60) }
{
    let mut total = total;
    for value in values {
        total = add(total, long_blocks(value));
    }
    total
}

/// The bytes of these rows in a table whose rows have this size.
pub(crate) fn rows_bytes(size: u16, rows: &[(u32, Props)]) -> u128
    ensures { result ≡ min (rows_space size rows.now) (2 ^ 100) }
{
    let mut total = 0;
    for row in rows {
        let cells = add_values_bytes(8 + u128::from(size), row.1.values());
        total = add_bytes(total, cells);
    }
    total
}

/// A sum with the blocks of the longer values in these rows.
pub(crate) fn add_cells_blocks(total: u64, rows: &[(u32, Props)]) -> u64
    requires { total ≤ 2 ^ 60 }
    ensures { result ≡ min (total + cells_blocks rows.now) (2 ^ 60) }
{
    let mut total = total;
    for row in rows {
        total = add_values_blocks(total, row.1.values());
    }
    total
}

/// How many heaps' worth a number of bytes is, with 4 for what comes with them.
pub(crate) fn heap_blocks(bytes: u128) -> u64
    requires { bytes ≤ 2 ^ 100 }
    ensures { (n : ℕ) → bytes ≡ min n (2 ^ 100) → result ≡ min (4 + n / 4080) (2 ^ 60) }
{
    let blocks = (bytes / 4080).min(1 << 60) as u64;
    add(4, blocks)
}
