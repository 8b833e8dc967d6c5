//! Where all parts of the copy stand.
ghost use Rattle.std.specs.Prelude.{◌≡◌, ◌++◌, map, IfOk, OnOk};
ghost use Rattle.data_tree.proofs.PieceLaws.{joined};
ghost use Rattle.file_layout.specs.Nodes.{place_of};
ghost use Rattle.file_layout.specs.Trees.{page_place};
ghost use Rattle.compactor.specs.Layout.{layout_places};
ghost use Rattle.compactor.specs.Steps.{layout_of};
ghost use Rattle.file_scan.specs.Parts.{AllShort};

use crate::planning::Plan;
use block_frame::disk_size;
use btree_pages::BlockEntry;
use copy_trees::Level;
use pst_base::{Bref, Place};
use std::alloc::{AllocError, Global};

/// The length of a page, in bytes.
const PAGE: u64 = 512;

/// Puts the places of blocks behind those that are there.
fn push_blocks(places: &mut Vec<Place>, blocks: &[BlockEntry]) -> Result<(), AllocError>
    requires { AllShort blocks.now }
    ensures { OnOk result (places.new.items ≡ places.old.items ++ map place_of blocks.now) }
{
    for entry in blocks {
        places.push(Place {
            ib: entry.at.ib,
            len: disk_size(entry.cb) as u64,
        })?;
    }
    Ok(())
}

/// Puts the places of pages behind those that are there.
fn push_pages(places: &mut Vec<Place>, pages: &[Bref]) -> Result<(), AllocError>
    ensures { OnOk result (places.new.items ≡ places.old.items ++ map page_place pages.now) }
{
    for page in pages {
        places.push(Place {
            ib: page.ib,
            len: PAGE,
        })?;
    }
    Ok(())
}

/// The same of all levels of a tree.
fn push_levels(places: &mut Vec<Place>, levels: &[Level]) -> Result<(), AllocError>
    ensures { OnOk result (places.new.items ≡ places.old.items ++ map page_place (joined levels.now)) }
{
    for level in levels {
        push_pages(places, level.as_slice())?;
    }
    Ok(())
}

/// The places of a plan's blocks and pages.
pub(crate) fn places_in(alloc: Global, plan: &Plan) -> Result<Vec<Place>, AllocError>
    requires { AllShort plan.now.blocks.items }
    ensures { IfOk result (λ places. places.items ≡ layout_places (layout_of plan.now)) }
{
    let mut places = Vec::new(alloc);
    push_blocks(&mut places, plan.blocks.as_slice())?;
    push_levels(&mut places, plan.nodes.levels.as_slice())?;
    push_levels(&mut places, plan.tree.levels.as_slice())?;
    Ok(places)
}
