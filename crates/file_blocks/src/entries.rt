//! Entries by their ids.
ghost use Rattle.std.specs.Prelude.{◌≡◌, ◌<◌, ℕ, true, length, HoldsAt, IfSome, IfNone};
ghost use Rattle.pst_base.specs.Ids.{key_of};
ghost use Rattle.file_blocks.specs.Blocks.{rise_from, entry_with, entry_key};

use btree_pages::BlockEntry;
use pst_base::Bid;

/// Where the entry of a key stands among entries whose keys ascend; `None` where there is none.
pub fn entry_index(entries: &[BlockEntry], key: u64) -> Option<usize>
    ensures within { IfSome result (λ i. i < length entries.now) }
    ensures found { IfSome result (HoldsAt (λ e. entry_key e ≡ key) entries.now) }
    ensures none { IfNone result (rise_from 0 entries.now ≡ true → (i : ℕ) → i < length entries.now → HoldsAt (λ e. entry_key e ≡ key) entries.now i → ⊥) }
{
    let mut low = 0;
    let mut high = entries.len();
    while low < high {
        let middle = low + (high - low) / 2;
        let here = entries[middle].at.bid.key();
        if here == key {
            return Some(middle);
        }
        if here < key {
            low = middle + 1;
        } else {
            high = middle;
        }
    }
    None
}

/// The entry of the block with this id, of which bit 0 doesn't count, among entries whose keys ascend; `None` where there is none.
pub fn find_entry(entries: &[BlockEntry], bid: Bid) -> Option<BlockEntry>
    ensures { rise_from 0 entries.now ≡ true → result ≡ entry_with (key_of bid.bits) entries.now }
{
    match entry_index(entries, bid.key()) {
        Some(index) => Some(entries[index]),
        None => None,
    }
}
