//! What a keeper needs of a file without nodes.
ghost use Rattle.std.specs.Prelude.{◌≡◌, ◌*◌, length, IfOk, IfErr};
ghost use Rattle.alloc_map.specs.Standing.{IsCovered, occupied};
ghost use Rattle.file_layout.specs.Nodes.{places_of};
ghost use Rattle.empty_file.specs.Empty.{alone, block_root, node_root};
ghost use Rattle.empty_file.specs.Known.{IsKnown};

use crate::laying::LayStop;
use crate::parts::{BLOCK_ROOT, NODE_ROOT, first_header};
use alloc_map::Slots;
use file_scan::FoundFile;
use pst_base::{MemOr, Place};
use ref_counts::RefCounts;
use std::alloc::Global;

/// How many regions a file may have.
const REGIONS: u32 = 8192;

/// The length of a page, in bytes.
const PAGE: u64 = 512;

/// The slots of both roots and of the fixed pages.
fn first_slots(alloc: Global) -> Result<Slots, LayStop>
    ensures size { IfOk result (λ slots. length slots ≡ 3968 * REGIONS) }
    ensures used { IfOk result (IsCovered (occupied (places_of (alone block_root) (alone node_root)) REGIONS)) }
    ensures memory { IfErr result (λ stop. stop ≡ LayStop.Memory) }
{
    let roots = [
        Place {
            ib: BLOCK_ROOT,
            len: PAGE,
        },
        Place {
            ib: NODE_ROOT,
            len: PAGE,
        },
    ];
    match Slots::rebuild(alloc, &roots, REGIONS) {
        Ok(slots) => Ok(slots),
        Err(MemOr::Memory) => Err(LayStop::Memory),
        Err(MemOr::Refused(_)) => unreachable!(),
    }
}

/// What a keeper needs of a file without nodes.
pub(crate) fn find_none(alloc: Global) -> Result<FoundFile, LayStop>
    ensures known { IfOk result IsKnown }
    ensures memory { IfErr result (λ stop. stop ≡ LayStop.Memory) }
{
    let header = first_header();
    Ok(FoundFile {
        header,
        slots: first_slots(alloc)?,
        pages: 2,
        next_block: header.next_block,
        next_page: header.next_page,
        refs: RefCounts::count(alloc, Vec::new(alloc))?,
    })
}
