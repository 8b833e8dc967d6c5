//! Items by their heap ids.
ghost use Rattle.std.specs.Prelude.{◌≡◌, ◌≤◌, ◌<◌, ℕ, List, Option, IfOk, OnErr, length, option_copied};
ghost use Rattle.heap_items.specs.Items.{AddsItem};

use std::alloc::AllocError;

/// A heap ([MS-PST] 2.3.1) whose items are found by their heap ids, and to which items are added. None is changed or taken away.
pub trait HeapItems {
    /// Why a call gives nothing.
    type Stop: Drop + From<AllocError>;

    /// The heap was these blocks at first, and has now these items by their heap ids. One of which not all is known tells each reading of all blocks that agree with what is.
    ghost tells: { Self → List (List ℕ) → (ℕ → Option (List ℕ)) → Type 0 };

    /// The item under a heap id, if there is one.
    fn item(&self, hid: u32) -> Result<Option<&[u8]>, Self::Stop>
        ensures found { IfOk result (λ x. (was : List (List ℕ)) (get : ℕ → Option (List ℕ)) → tells self.now was get → option_copied x ≡ get hid) };

    /// Adds an item of 1 to 3,580 bytes, and gives its heap id, under which there was none. An `Err` leaves all items as they are.
    fn add(&mut self, x: &[u8]) -> Result<u32, Self::Stop>
        requires some { 0 < length x.now }
        requires size { length x.now ≤ 3580 }
        ensures adds { IfOk result (λ hid. (was : List (List ℕ)) (get : ℕ → Option (List ℕ)) → tells self.old was get → AddsItem (tells self.new was) get x.now hid) }
        ensures err { OnErr result ((was : List (List ℕ)) (get : ℕ → Option (List ℕ)) → tells self.old was get → tells self.new was get) };
}
