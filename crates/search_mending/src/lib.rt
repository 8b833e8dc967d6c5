//! Mending the searches of a store: what it comes to, and what follows of it.
//!
//! `specs/` says which searches are stale and which criteria objects are of the first version (`is_stale`, `is_of_first`), what mending one search comes to (`mended_search`) and what mending all comes to (`mended`). Promises: a search is stale just where it runs and doesn't list what filtering all messages gives (`tells_stale`); mending one is done or refused, and leaves the tree in order with the same searches, this one mended, each other one and all else as before (`mends_in_order`); after all were mended all is in order, and each running search lists what filtering gives (`mends_all`). Where the tree was tidy but for the counts of stale searches, it is tidy then.
//!
//! Leaves to others: carrying it out over a keeper.
#![tactic(auto)]

mod law;

pub use law::{mends_all, mends_in_order, tells_stale};
