//! Mending the searches of a store over a keeper.
//!
//! Promises: `mending` answers what the definitions say that mending the search of an own search folder comes to (`mended_search`), and changes nothing. `mend_searches` mends each own search folder that is stale or whose criteria object is of the first version, ascending by id, one commit each, which writes all nodes of the search, and counts both kinds; where it stops, the searches before stay mended (`StopsWithin`), and a stop at any moment leaves a disk that stands for the tree with some of the first ones mended (`LeavesMended`).
//!
//! Leaves to others: what mending means, and that it leaves the tree in order (`search_mending`).
#![tactic(auto)]

mod all;
mod coming;
mod listing;
mod one;
mod planning;
mod stop;
mod touching;
mod turning;

pub use all::{Mended, mend_searches};
pub use coming::{SearchMending, mending};
pub use stop::MendStop;
pub use store_session::{mail_store, search_store};
