//! Looking up one key.
ghost use Rattle.std.specs.Prelude.{◌≡◌, ◌≤◌, ◌<◌, ◌^◌, ◌+◌, ◌++◌, ◌∷◌, [], ℕ, List, length, true, option_copied};
ghost use Rattle.heap_on_node.specs.Heap.{item};
ghost use Rattle.bth_tree.specs.Answers.{seen};
ghost use Rattle.bth_tree.specs.Find.{FindsEntry, Looks, LooksPart, SumsMaybe, SumsPart, either as either_entry};
ghost use Rattle.bth_tree.specs.Records.{entry_of, ordered, within};
ghost use Rattle.bth_tree.specs.Tree.{any_bth, filled, tree, under};

use crate::read::{behind, end_at, has_header};
use crate::record::{BthFault, Record, key_at, record_at};
use heap_on_node::HeapView;
use pst_base::{u8_at, u32_at};

/// The first and the last key of some records, and the entry of the key that is looked for.
#[derive(Clone, Copy, Debug)]
pub struct Sum<'a> {
    pub first: u32,
    pub last: u32,
    pub entry: Option<&'a [u8]>,
}

/// The first of two entries, if there is one, or else the second.
fn either<'a>(first: Option<&'a [u8]>, second: Option<&'a [u8]>) -> Option<&'a [u8]>
    ensures { option_copied result ≡ either_entry (option_copied first.entry) (option_copied second.entry) }
{
    match first {
        Some(entry) => Some(entry),
        None => second,
    }
}

/// The sum of records and of others behind them.
fn joined<'a>(before: Option<Sum<'a>>, more: Sum<'a>) -> Sum<'a>
    ensures { (key : ℕ) (xs ys : List (ℕ × List ℕ)) → SumsMaybe key xs before.entry → SumsPart key ys more.entry → SumsPart key (xs ++ ys) result }
{
    match before {
        None => more,
        Some(sum) => Sum {
            first: sum.first,
            last: more.last,
            entry: either(sum.entry, more.entry),
        },
    }
}

/// The sum of one record.
fn one<'a>(found: Record<'a>, key: u32) -> Sum<'a>
    ensures { SumsPart key (seen found.entry ∷ []) result }
{
    Sum {
        first: found.key,
        last: found.key,
        entry: if found.key == key {
            Some(found.entry)
        } else {
            None
        },
    }
}

/// The sum, if there were records.
fn filled_sum<'a>(sum: Option<Sum<'a>>) -> Result<Sum<'a>, BthFault>
    ensures { (key : ℕ) (rs : List (ℕ × List ℕ)) → SumsMaybe key rs sum.entry → LooksPart key result (filled rs) }
{
    match sum {
        Some(sum) => Ok(sum),
        None => Err(BthFault),
    }
}

/// Looks at a leaf's records.
fn look_leaf<'a>(x: &'a [u8], k: usize, e: usize, key: u32) -> Result<Option<Sum<'a>>, BthFault>
    requires low { 1 ≤ k }
    requires high { k ≤ 4 }
    requires entry { e < 256 }
    ensures { Looks key result (ordered k e 0 (2 ^ 32) x.now) }
{
    let mut rest = x;
    let mut low = 0u64;
    let mut sum = None;
    while rest.len() > 0 {
        if rest.len() < k + e {
            return Err(BthFault);
        }
        let record = record_at(rest, k, e);
        if u64::from(record.key) < low {
            return Err(BthFault);
        }
        low = u64::from(record.key) + 1;
        sum = Some(joined(sum, one(record, key)));
        rest = behind(rest, k + e);
    }
    Ok(sum)
}

/// Whether the keys of a sum's records, which ascend strictly, stand from `low` on and below `end`.
fn lies_within(sum: Sum, low: u32, end: u64) -> bool
    ensures { (key : ℕ) (rs : List (ℕ × List ℕ)) → SumsPart key rs sum.entry → within 0 (2 ^ 32) rs ≡ true → result ≡ within low end rs }
{
    low <= sum.first && u64::from(sum.last) < end
}

/// Looks at the records below an item of a level.
fn look_tree<'a>(
    h: &HeapView<'a>,
    k: usize,
    e: usize,
    level: u8,
    hid: u32,
    key: u32,
) -> Result<Sum<'a>, BthFault>
    requires low { 1 ≤ k }
    requires high { k ≤ 4 }
    requires entry { e < 256 }
    ensures { LooksPart key result (tree (item h.now) k e level hid) }
{
    let Some(x) = h.item(hid) else {
        return Err(BthFault);
    };
    if level == 0 {
        return filled_sum(look_leaf(x, k, e, key)?);
    }
    let mut rest = x;
    let mut sum = None;
    while rest.len() > 0 {
        if rest.len() < k + 4 {
            return Err(BthFault);
        }
        let pair = record_at(rest, k, 4);
        rest = behind(rest, k + 4);
        let end = end_at(rest, k);
        let child = look_tree(h, k, e, level - 1, key_at(pair.entry, 4), key)?;
        if !lies_within(child, pair.key, end) {
            return Err(BthFault);
        }
        sum = Some(joined(sum, child));
    }
    filled_sum(sum)
}

/// The entry that a look-up found, if there is one.
fn found_entry<'a>(sum: Option<Sum<'a>>) -> Option<&'a [u8]>
    ensures { (key : ℕ) (rs : List (ℕ × List ℕ)) → SumsMaybe key rs sum.entry → option_copied result ≡ entry_of key rs }
{
    match sum {
        Some(sum) => sum.entry,
        None => None,
    }
}

/// Looks at the records of the tree that a header begins.
fn look_under<'a>(
    h: &HeapView<'a>,
    k: usize,
    e: usize,
    x: &[u8],
    key: u32,
) -> Result<Option<Sum<'a>>, BthFault>
    requires low { 1 ≤ k }
    requires high { k ≤ 4 }
    requires entry { e < 256 }
    requires size { 8 ≤ length x.now }
    ensures { Looks key result (under (item h.now) k e x.now) }
{
    let (level, hid) = (u8_at(x, 3), u32_at(x, 4));
    if hid == 0 {
        return Ok(None);
    }
    if level > 0 {
        return Ok(Some(look_tree(h, k, e, level, hid, key)?));
    }
    let Some(leaf) = h.item(hid) else {
        return Err(BthFault);
    };
    look_leaf(leaf, k, e, key)
}

/// The entry of a key in the tree under a heap id, if it has one. The lengths of keys, from 1 to 4 bytes, and of entries are those that the tree's header gives. A refusal comes exactly where no such tree stands there, so the whole tree is read; it takes no memory.
pub fn bth_find<'a>(h: &HeapView<'a>, hid: u32, key: u32) -> Result<Option<&'a [u8]>, BthFault>
    ensures { FindsEntry key result (any_bth (item h.now) hid) }
{
    let Some(x) = h.item(hid) else {
        return Err(BthFault);
    };
    if x.len() < 8 {
        return Err(BthFault);
    }
    let (key_len, ent_len) = (u8_at(x, 1), u8_at(x, 2));
    if key_len == 0 {
        return Err(BthFault);
    }
    if key_len > 4 {
        return Err(BthFault);
    }
    if !has_header(x, key_len, ent_len) {
        return Err(BthFault);
    }
    let sum = look_under(h, usize::from(key_len), usize::from(ent_len), x, key)?;
    Ok(found_entry(sum))
}
