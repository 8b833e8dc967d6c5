//! The steps by which a tree of pages ([MS-PST] 2.2.2.7.7) is edited by copies: the pages on the way to the edited keys are written anew, and what becomes too small is joined with a neighbour; all other pages stay where they are.
//!
//! A tree is said over what its pages show (`specs/Shapes.antt`), so that a clause may speak of any source of pages. `edit_root` plans the pages below a root, `repacked` the leaves of a tree that is written anew as a whole, and `pack_inners` the pages above those of a level; the crate `tree_change` makes whole plans of them. `look_up` finds one entry. They read from a `PageSource`: `look_up` the pages on the way alone, `edit_root` also the neighbours that are joined, `repacked` the whole tree.
//!
//! The ids and places of new pages, and the bytes that are written, are the caller's.
#![tactic(auto)]

mod anew;
mod below;
mod descent;
mod edits;
mod join;
mod look;
mod merge;
mod pack;
mod page;
mod plan;
mod source;

pub use below::{Level, edit_root, repacked, root_page};
pub use edits::are_edits;
pub use look::look_up;
pub use pack::pack_inners;
pub use plan::{Child, Plan, PlanPage};
pub use source::PageSource;
