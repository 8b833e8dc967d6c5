//! All devices as one object, so that what the disk holds and what has been said stand on one clock.
ghost use Rattle.std.specs.Prelude.{◌≡◌, ◌≤◌, ◌<◌, ◌++◌, [], length, take, drop, IfOk, OnOk, OnErr};
ghost use Rattle.pst_outside.specs.World.{Image, World, content, after_write, TornAt, SameDisk};
ghost use Rattle.pst_outside.specs.Calls.{Rose, NeverFall, Stays, Untouched, StaysButInput, StaysButSaid, StaysButRange, NoMore, Follows, Elapses};

/// A part of the disk: the store's file, the small file beside it that holds the gate, and the file of a copy.
#[derive(Clone, Copy, Debug, PartialEq, Eq)]
pub enum Part {
    Main,
    Side,
    Copy,
}

/// A device has failed.
#[derive(Clone, Copy, Debug, PartialEq, Eq)]
pub struct Failed;

/// Input, output and the disk. Its one ghost member is all that contracts see of it.
pub trait Outside {
    /// The world: its counts, what it holds and has said, and what a crash may leave.
    ghost view: { Self → World };

    /// Reads input, and gives how many bytes of the buffer it filled. For a buffer that isn't empty, 0 means the end of the input.
    fn take(&mut self, buf: &mut [u8]) -> Result<usize, Failed>
        ensures counts { NeverFall (view self.old) (view self.new) }
        ensures cause { OnErr result (Rose (view self.old).in_faults (view self.new).in_faults) }
        ensures within { IfOk result (λ n. n ≤ length buf.new) }
        ensures content { StaysButInput (view self.old) (view self.new) }
        ensures keeps_told { (view self.old).tells → (view self.new).tells }
        ensures input { IfOk result (λ n. (view self.new).tells → (view self.old).input ≡ take n buf.new ++ (view self.new).input) }
        ensures end { IfOk result (λ n. (view self.new).tells → n ≡ 0 → 0 < length buf.new → (view self.old).input ≡ []) }
        ensures input_err { OnErr result ((view self.new).tells → (view self.new).input ≡ (view self.old).input) }
        ensures crash { NoMore (view self.old) (view self.new) }
        ensures time { Elapses (view self.old) (view self.new) };

    /// Writes output, and gives how many bytes of the piece it took: at least 1 of a piece that isn't empty. They count as said at once.
    fn say(&mut self, piece: &[u8]) -> Result<usize, Failed>
        ensures counts { NeverFall (view self.old) (view self.new) }
        ensures cause { OnErr result (Rose (view self.old).out_faults (view self.new).out_faults) }
        ensures within { IfOk result (λ n. n ≤ length piece.now) }
        ensures some { IfOk result (λ n. 0 < length piece.now → 0 < n) }
        ensures content { StaysButSaid (view self.old) (view self.new) }
        ensures said { IfOk result (λ n. (view self.new).tells → (view self.new).here.said ≡ (view self.old).here.said ++ take n piece.now) }
        ensures said_err { OnErr result ((view self.new).tells → (view self.new).here.said ≡ (view self.old).here.said) }
        ensures crash { Follows SameDisk (view self.old) (view self.new) }
        ensures time { Elapses (view self.old) (view self.new) };

    /// A part's length in bytes.
    fn len(&mut self, part: Part) -> Result<u64, Failed>
        ensures cause { OnErr result (Rose (view self.old).disk_faults (view self.new).disk_faults) }
        ensures same { Untouched (view self.old) (view self.new) }
        ensures len { IfOk result (λ n. (view self.new).tells → n ≡ length (content part (view self.new).here)) };

    /// Reads from a place, and gives how many bytes of the buffer it filled: fewer than asked only at the part's end. Of a world that doesn't tell, the rest of the buffer may hold anything afterwards.
    fn read_at(&mut self, part: Part, at: u64, buf: &mut [u8]) -> Result<usize, Failed>
        ensures cause { OnErr result (Rose (view self.old).disk_faults (view self.new).disk_faults) }
        ensures within { IfOk result (λ n. n ≤ length buf.new) }
        ensures same { Untouched (view self.old) (view self.new) }
        ensures read { IfOk result (λ n. (view self.new).tells → take n buf.new ≡ take (length buf.new) (drop at (content part (view self.new).here))) }
        ensures rest { IfOk result (λ n. (view self.new).tells → drop n buf.new ≡ drop n buf.old) };

    /// Writes the whole piece at a place, past the old end too. Until a sync, a crash may leave any bytes in the range, and so may an `Err`.
    fn write_at(&mut self, part: Part, at: u64, bytes: &[u8]) -> Result<(), Failed>
        ensures counts { NeverFall (view self.old) (view self.new) }
        ensures cause { OnErr result (Rose (view self.old).disk_faults (view self.new).disk_faults) }
        ensures content { StaysButRange part at (length bytes.now) (view self.old) (view self.new) }
        ensures after { OnOk result ((view self.new).tells → content part (view self.new).here ≡ after_write (content part (view self.old).here) at bytes.now) }
        ensures crash { Follows (TornAt part at (length bytes.now)) (view self.old) (view self.new) }
        ensures time { Elapses (view self.old) (view self.new) };

    /// Makes the part stable: after it, a crash leaves what a read gives. An `Err` makes nothing stable.
    fn sync(&mut self, part: Part) -> Result<(), Failed>
        ensures counts { NeverFall (view self.old) (view self.new) }
        ensures cause { OnErr result (Rose (view self.old).disk_faults (view self.new).disk_faults) }
        ensures content { Stays (view self.old) (view self.new) }
        ensures keeps_told { (view self.old).tells → (view self.new).tells }
        ensures durable { OnOk result ((c : Image) → (view self.new).may_leave c → content part c ≡ content part (view self.new).here) }
        ensures crash { NoMore (view self.old) (view self.new) }
        ensures time { Elapses (view self.old) (view self.new) };
}
