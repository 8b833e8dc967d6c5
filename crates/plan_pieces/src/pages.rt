//! New pages of a tree, sealed for their places.
ghost use Rattle.std.specs.Prelude.{◌≡◌, ◌<◌, ◌+◌, ◌^◌, All, IfOk, Some, length, map};
ghost use Rattle.btree_pages.specs.Pages.{page_of};
ghost use Rattle.node_layout.specs.Pieces.{piece_place};
ghost use Rattle.node_layout.specs.Written.{AreWritten, IsWritten};
ghost use Rattle.pst_base.specs.declared.places.Place.{Place as Places};
ghost use Rattle.tree_edit.specs.Pages.{seen};
ghost use Rattle.tree_edit.specs.Plans.{AreWritable, IsWritable, shape_in};
ghost use Rattle.plan_pieces.specs.Names.{inner_entries, named};

use crate::names::{name_of, resolve_child};
use btree_pages::{Entry, Inner, write_inner, write_leaf};
use lays_kept::Piece;
use page_frame::seal;
use pst_base::{Bytes, Place};
use std::alloc::{AllocError, Global};
use tree_edit::{Child, PlanPage};

/// The new pages of a tree, sealed for their places: page i has the id `first + i`. `kind` is that of the tree's pages ([MS-PST] 2.2.2.7.1).
pub fn seal_pages<E: Entry>(
    alloc: Global,
    kind: u8,
    first: u64,
    places: &[Place],
    pages: &[PlanPage<E>],
) -> Result<Vec<Piece>, AllocError>
    requires long { length places.now ≡ length pages.now }
    requires numbers { first + length pages.now < 2 ^ 64 }
    requires whole { All (λ (p : Places). p.len ≡ 512) places.now }
    requires writable { AreWritable E.key E.rule E.size pages.now }
    ensures written { IfOk result (λ pieces. AreWritten E.rule E.size E.entry_of kind (named first places.now) 0 pages.now pieces.items) }
    ensures placed { IfOk result (λ pieces. map piece_place pieces.items ≡ places.now) }
{
    let mut pieces = Vec::new(alloc);
    for i in 0..pages.len() {
        pieces.push(seal_page(alloc, kind, first, places, i, &pages[i])?)?;
    }
    Ok(pieces)
}

/// The new page with a number.
fn seal_page<E: Entry>(
    alloc: Global,
    kind: u8,
    first: u64,
    places: &[Place],
    i: usize,
    page: &PlanPage<E>,
) -> Result<Piece, AllocError>
    requires numbers { first + length places.now < 2 ^ 64 }
    requires writable { IsWritable E.key E.rule E.size page.now }
    ensures written { IfOk result (IsWritten E.rule E.size E.entry_of kind (named first places.now) (named first places.now i) page.now) }
    ensures size { IfOk result (λ piece. length piece.bytes ≡ 512) }
{
    let at = name_of(first, places, i);
    let body = body_of(alloc, first, places, page)?;
    let bytes = Bytes::from_slice(alloc, &seal(&body, kind, at))?;
    Ok(Piece { at: at.ib, bytes })
}

/// The content of a new page, which shows what was planned.
fn body_of<E: Entry>(
    alloc: Global,
    first: u64,
    places: &[Place],
    page: &PlanPage<E>,
) -> Result<[u8; 496], AllocError>
    requires numbers { first + length places.now < 2 ^ 64 }
    requires writable { IsWritable E.key E.rule E.size page.now }
    ensures { IfOk result (λ body. seen E.rule E.entry_of (page_of E.rule E.size body) ≡ Some (shape_in (named first places.now) page.now)) }
{
    match page {
        PlanPage::Leaf(entries) => Ok(write_leaf(entries.as_slice())),
        PlanPage::Inner { level, children } => {
            let entries = inner_entries(alloc, first, places, children.as_slice())?;
            Ok(write_inner::<E>(*level, entries.as_slice()))
        }
    }
}

/// The entries of an inner page with these children.
fn inner_entries(
    alloc: Global,
    first: u64,
    places: &[Place],
    children: &[(u64, Child)],
) -> Result<Vec<Inner>, AllocError>
    requires { first + length places.now < 2 ^ 64 }
    ensures { IfOk result (λ entries. entries.items ≡ inner_entries (named first places.now) children.now) }
{
    let mut entries = Vec::new(alloc);
    for child in children {
        let page = resolve_child(first, places, child.1);
        entries.push(Inner { key: child.0, page })?;
    }
    Ok(entries)
}
