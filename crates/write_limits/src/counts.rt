//! Sums over values and rows. A sum of 2^32 or more is only known to be one.
ghost use Rattle.std.specs.Prelude.{◌≡◌, ◌+◌, ◌^◌, ◌≤◌, min};
ghost use Rattle.write_limits.specs.Limits.{cells_bytes, direct, heap_bytes, long_cells, long_value, long_values, rows_bytes};

use mapi_values::{Props, Value, fixed_width};
use pst_base::Subs;

/// The sum that stands for all that are greater.
const MUCH: u64 = 1 << 32;

/// A sum with so much more.
pub fn add(total: u64, more: usize) -> u64
    requires { total ≤ 2 ^ 32 }
    ensures { result ≡ min (total + more) (2 ^ 32) }
{
    (total + (more as u64).min(MUCH)).min(MUCH)
}

/// One for a value that is too long for a heap.
#[tactic(auto, unfolding(crate::specs::Limits::long_value))]
fn long_value(value: &Value) -> usize
    ensures { result ≡ long_value value.now }
{
    if value.len() > 3580 { 1 } else { 0 }
}

/// A sum with the number of long values.
pub fn add_long_values(total: u64, values: &[Value]) -> u64
    requires { total ≤ 2 ^ 32 }
    ensures { result ≡ min (total + long_values values.now) (2 ^ 32) }
{
    let mut total = total;
    for value in values {
        total = add(total, long_value(value));
    }
    total
}

/// A sum with the number of long cells of these rows.
pub fn add_long_cells(total: u64, rows: &[(u32, Props)]) -> u64
    requires { total ≤ 2 ^ 32 }
    ensures { result ≡ min (total + long_cells rows.now) (2 ^ 32) }
{
    let mut total = total;
    for row in rows {
        total = add_long_values(total, row.1.values());
    }
    total
}

/// The bytes that a cell takes in the heap of its table.
#[tactic(auto, unfolding(crate::specs::Limits::heap_bytes))]
fn heap_bytes(value: &Value) -> usize
    ensures { result ≡ heap_bytes value.now }
{
    let len = value.len();
    if fixed_width(value.kind()).is_some() || len == 0 || len > 3580 {
        0
    } else {
        len + 4
    }
}

/// A sum with the bytes that these cells take in the heap.
fn add_cells_bytes(total: u64, cells: &[Value]) -> u64
    requires { total ≤ 2 ^ 32 }
    ensures { result ≡ min (total + cells_bytes cells.now) (2 ^ 32) }
{
    let mut total = total;
    for cell in cells {
        total = add(total, heap_bytes(cell));
    }
    total
}

/// A sum with the bytes that the cells of these rows take in the heap.
pub fn add_rows_bytes(total: u64, rows: &[(u32, Props)]) -> u64
    requires { total ≤ 2 ^ 32 }
    ensures { result ≡ min (total + rows_bytes rows.now) (2 ^ 32) }
{
    let mut total = total;
    for row in rows {
        total = add_cells_bytes(total, row.1.values());
    }
    total
}

/// How many of the subnodes stand directly in the list.
pub fn direct(subs: &Subs) -> usize
    ensures { result ≡ direct subs.now }
{
    subs.as_slice().len()
}
