//! A save: the header that vouches for no maps, the maps, and the header that vouches for them.
ghost use Rattle.std.specs.Prelude.{◌≡◌, ◌≤◌, ◌<◌, ◌+◌, ◌*◌, min, List, ℕ, IfOk, OnOk, OnErr};
ghost use Rattle.pst_outside.specs.Calls.{Rose, NeverFall, LeavesOnly, Settled};
ghost use Rattle.pst_header.specs.Format.{IsWritable};
ghost use Rattle.alloc_map.specs.Slots.{regions_of};
ghost use Rattle.gate_file.specs.Gate.{IsShut};
ghost use Rattle.file_blocks.specs.Blocks.{file_of};
ghost use Rattle.file_layout.specs.Nodes.{regions_to};
ghost use Rattle.node_port.specs.Nodes.{Nodes};
ghost use Rattle.lays_kept.specs.Kept.{HoldsEach, Scattered};
ghost use Rattle.lays_kept.specs.Saved.{HasMaps, HoldsMaps, LaysSame, SameTrees, UsesJust, last_byte, map_pieces, region_end};
ghost use Rattle.lays_kept.specs.Stands.{last_map};
ghost use Rattle.pst_commit.specs.Commit.{LeavesNodes, Writes};
ghost use Rattle.pst_commit.specs.Held.{LeavesTrees};
ghost use Rattle.pst_commit.specs.Keeping.{CanSave};

use alloc_map::Slots;
use gate_file::{commit_header, write_through};
use pst_header::{Header, write};
use pst_outside::{Failed, Outside, Part};

/// Where the first region of a file begins ([MS-PST] 2.2.2.7.2).
const FIRST: u64 = 0x4400;

/// How many bytes a region has.
const REGION: u64 = 253_952;

/// How many regions a file of eof bytes has, the last of which may be cut short, but no more than `most`.
pub(crate) fn count_regions(eof: u64, most: u32) -> u32
    requires { 1 ≤ most }
    ensures { result ≡ min most (regions_to eof) }
{
    let bytes = eof.saturating_sub(FIRST).max(1);
    let regions = (bytes - 1) / REGION + 1;
    regions.min(u64::from(most)) as u32
}

/// Where so many regions end, and the next begins.
pub(crate) fn region_end(regions: u32) -> u64
    ensures { result ≡ region_end regions }
{
    FIRST + REGION * u64::from(regions)
}

/// Where the map page of the last region of a file of eof bytes stands ([MS-PST] 2.2.2.5, `ibAMapLast`).
pub fn last_map(eof: u64) -> u64
    ensures { result ≡ last_map eof }
{
    let bytes = eof.saturating_sub(FIRST).max(1);
    FIRST + (bytes - 1) / REGION * REGION
}

/// The header of the next commit, which vouches for no maps, of a file that ends there.
fn without_maps(header: &Header, end: u64) -> Header
    requires { IsWritable header.now }
    ensures writable { IsWritable result }
    ensures trees { SameTrees header.now result }
    ensures kept { result.kept ≡ header.now.kept }
    ensures maps { result.maps ≡ 0 }
    ensures eof { result.eof ≡ end }
{
    Header {
        eof: end,
        maps: 0,
        unique: header.unique.wrapping_add(1),
        ..*header
    }
}

/// The header of the next commit, which vouches for the maps and names the last of them, where so many bytes are free.
fn with_maps(header: &Header, free: u64) -> Header
    requires { IsWritable header.now }
    ensures writable { IsWritable result }
    ensures trees { SameTrees header.now result }
    ensures kept { result.kept ≡ header.now.kept }
    ensures maps { result.maps ≡ 2 }
    ensures eof { result.eof ≡ header.now.eof }
    ensures free { result.amap_free ≡ free }
    ensures last { result.amap_last ≡ last_map result.eof }
{
    Header {
        amap_last: last_map(header.eof),
        amap_free: free,
        maps: 2,
        unique: header.unique.wrapping_add(1),
        ..*header
    }
}

/// Makes a file of eof bytes reach to its new end by a zero as its last byte.
fn lengthen<W: Outside>(w: &mut W, eof: u64, end: u64) -> Result<(), Failed>
    ensures counts { NeverFall (W.view w.old) (W.view w.new) }
    ensures cause { OnErr result (Rose (W.view w.old).disk_faults (W.view w.new).disk_faults) }
    ensures told { (W.view w.new).tells → (W.view w.old).tells }
    ensures input { (W.view w.new).tells → (W.view w.new).input ≡ (W.view w.old).input }
    ensures written { (W.view w.new).written ≤ (W.view w.old).written + 1 }
    ensures settled { Settled (W.view w.old) → OnOk result (Settled (W.view w.new)) }
    ensures holds { OnOk result ((W.view w.new).tells → HoldsEach (W.view w.new).here.main (last_byte eof end)) }
    ensures content { (W.view w.new).tells → Writes (Scattered (last_byte eof end) (W.view w.old).here.main) (W.view w.old).here (W.view w.new).here }
    ensures any_moment { Settled (W.view w.old) → LeavesOnly (W.view w.old) (W.view w.new) (Writes (Scattered (last_byte eof end) (W.view w.old).here.main) (W.view w.old).here) }
{
    if end <= eof {
        return Ok(());
    }
    write_through(w, Part::Main, end - 1, &[0])?;
    Ok(())
}

/// Commits a header that vouches for no maps, over a file that ends there.
fn put_unmapped<W: Outside>(w: &mut W, header: &Header, end: u64) -> Result<Header, Failed>
    requires { IsWritable header.now }
    ensures counts { NeverFall (W.view w.old) (W.view w.new) }
    ensures cause { OnErr result (Rose (W.view w.old).disk_faults (W.view w.new).disk_faults) }
    ensures told { (W.view w.new).tells → (W.view w.old).tells }
    ensures input { (W.view w.new).tells → (W.view w.new).input ≡ (W.view w.old).input }
    ensures written { (W.view w.new).written ≤ (W.view w.old).written + 1146 }
    ensures settled { Settled (W.view w.old) → OnOk result (Settled (W.view w.new)) }
    ensures shut { ((W.view w.old).tells → IsShut (W.view w.old).here.side) → OnOk result ((W.view w.new).tells → IsShut (W.view w.new).here.side) }
    ensures writable { IfOk result IsWritable }
    ensures trees { IfOk result (SameTrees header.now) }
    ensures kept { IfOk result (λ next. next.kept ≡ header.now.kept) }
    ensures maps { IfOk result (λ next. next.maps ≡ 0) }
    ensures eof { IfOk result (λ next. next.eof ≡ end) }
    ensures keeps { (found : List ℕ) (N : Nodes) → CanSave found header.now end (W.view w.old) N → IfOk result (λ next. CanSave found next end (W.view w.new) N × ((W.view w.new).tells → LaysSame header.now next (file_of (W.view w.old).here) (file_of (W.view w.new).here) × LeavesTrees header.now next (file_of (W.view w.old).here) (file_of (W.view w.new).here))) }
    // A crash at any moment leaves the same nodes.
    ensures any_moment { Settled (W.view w.old) → (found : List ℕ) (N : Nodes) → CanSave found header.now end (W.view w.old) N → LeavesNodes (W.view w.old) (W.view w.new) found N header.now.indexes }
{
    let next = without_maps(header, end);
    let sealed = write(&next);
    lengthen(w, header.eof, end)?;
    commit_header(w, &sealed)?;
    Ok(next)
}

/// The header of a file that vouches for no maps and ends there: the one that counts, or the next.
pub(crate) fn unmap<W: Outside>(w: &mut W, header: &Header, end: u64) -> Result<Header, Failed>
    requires { IsWritable header.now }
    ensures counts { NeverFall (W.view w.old) (W.view w.new) }
    ensures cause { OnErr result (Rose (W.view w.old).disk_faults (W.view w.new).disk_faults) }
    ensures told { (W.view w.new).tells → (W.view w.old).tells }
    ensures input { (W.view w.new).tells → (W.view w.new).input ≡ (W.view w.old).input }
    ensures written { (W.view w.new).written ≤ (W.view w.old).written + 1146 }
    ensures settled { Settled (W.view w.old) → OnOk result (Settled (W.view w.new)) }
    ensures shut { ((W.view w.old).tells → IsShut (W.view w.old).here.side) → OnOk result ((W.view w.new).tells → IsShut (W.view w.new).here.side) }
    ensures writable { IfOk result IsWritable }
    ensures trees { IfOk result (SameTrees header.now) }
    ensures kept { IfOk result (λ next. next.kept ≡ header.now.kept) }
    ensures maps { IfOk result (λ next. next.maps ≡ 0) }
    ensures eof { IfOk result (λ next. next.eof ≡ end) }
    ensures keeps { (found : List ℕ) (N : Nodes) → CanSave found header.now end (W.view w.old) N → IfOk result (λ next. CanSave found next end (W.view w.new) N × ((W.view w.new).tells → LaysSame header.now next (file_of (W.view w.old).here) (file_of (W.view w.new).here) × LeavesTrees header.now next (file_of (W.view w.old).here) (file_of (W.view w.new).here))) }
    ensures any_moment { Settled (W.view w.old) → (found : List ℕ) (N : Nodes) → CanSave found header.now end (W.view w.old) N → LeavesNodes (W.view w.old) (W.view w.new) found N header.now.indexes }
{
    if header.maps != 0 {
        return put_unmapped(w, header, end);
    }
    if header.eof != end {
        return put_unmapped(w, header, end);
    }
    Ok(*header)
}

/// Writes the map pages of the first regions into Main, and makes it stable.
pub fn write_maps<W: Outside>(w: &mut W, slots: &Slots, regions: u32) -> Result<(), Failed>
    requires { regions ≤ regions_of slots.now }
    ensures counts { NeverFall (W.view w.old) (W.view w.new) }
    ensures cause { OnErr result (Rose (W.view w.old).disk_faults (W.view w.new).disk_faults) }
    ensures told { (W.view w.new).tells → (W.view w.old).tells }
    ensures input { (W.view w.new).tells → (W.view w.new).input ≡ (W.view w.old).input }
    ensures written { (W.view w.new).written ≤ (W.view w.old).written + 512 * regions }
    ensures settled { Settled (W.view w.old) → OnOk result (Settled (W.view w.new)) }
    ensures holds { OnOk result ((W.view w.new).tells → HoldsMaps slots.now regions (W.view w.new).here.main) }
    ensures content { (W.view w.new).tells → Writes (Scattered (map_pieces regions) (W.view w.old).here.main) (W.view w.old).here (W.view w.new).here }
    ensures any_moment { Settled (W.view w.old) → LeavesOnly (W.view w.old) (W.view w.new) (Writes (Scattered (map_pieces regions) (W.view w.old).here.main) (W.view w.old).here) }
{
    for r in 0..regions {
        w.write_at(Part::Main, region_end(r), &slots.map_page(r))?;
    }
    w.sync(Part::Main)?;
    Ok(())
}

/// Writes the map pages of all regions, and then commits a header that vouches for them.
pub(crate) fn save_maps<W: Outside>(
    w: &mut W,
    header: &Header,
    slots: &Slots,
    regions: u32,
) -> Result<Header, Failed>
    requires writable { IsWritable header.now }
    requires few { regions ≤ regions_of slots.now }
    ensures counts { NeverFall (W.view w.old) (W.view w.new) }
    ensures cause { OnErr result (Rose (W.view w.old).disk_faults (W.view w.new).disk_faults) }
    ensures told { (W.view w.new).tells → (W.view w.old).tells }
    ensures input { (W.view w.new).tells → (W.view w.new).input ≡ (W.view w.old).input }
    ensures written { (W.view w.new).written ≤ (W.view w.old).written + (512 * regions + 1145) }
    ensures settled { Settled (W.view w.old) → OnOk result (Settled (W.view w.new)) }
    ensures shut { ((W.view w.old).tells → IsShut (W.view w.old).here.side) → OnOk result ((W.view w.new).tells → IsShut (W.view w.new).here.side) }
    ensures writable { IfOk result IsWritable }
    ensures trees { IfOk result (SameTrees header.now) }
    ensures kept { IfOk result (λ next. next.kept ≡ header.now.kept) }
    ensures keeps { (found : List ℕ) (N : Nodes) → header.now.maps ≡ 0 → header.now.eof ≡ region_end regions → CanSave found header.now (region_end regions) (W.view w.old) N → ((W.view w.old).tells → UsesJust header.now (file_of (W.view w.old).here) slots.now)
        → IfOk result (λ next. CanSave found next (region_end regions) (W.view w.new) N × ((W.view w.new).tells → LaysSame header.now next (file_of (W.view w.old).here) (file_of (W.view w.new).here) × HasMaps next (file_of (W.view w.new).here) × LeavesTrees header.now next (file_of (W.view w.old).here) (file_of (W.view w.new).here))) }
    // A crash at any moment leaves the same nodes.
    ensures any_moment { Settled (W.view w.old) → (found : List ℕ) (N : Nodes) → header.now.maps ≡ 0 → header.now.eof ≡ region_end regions → CanSave found header.now (region_end regions) (W.view w.old) N → ((W.view w.old).tells → UsesJust header.now (file_of (W.view w.old).here) slots.now)
        → LeavesNodes (W.view w.old) (W.view w.new) found N header.now.indexes }
{
    let next = with_maps(header, slots.free_bytes(regions));
    let sealed = write(&next);
    write_maps(w, slots, regions)?;
    commit_header(w, &sealed)?;
    Ok(next)
}
