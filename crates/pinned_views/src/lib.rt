//! Pins through calls that know of none: a keeper, and a reader of one pin, whose pins go on telling what they told, whatever is called over them.
//!
//! Promises: `UnderPins` is the keeper in it, whose nodes are held together with what its pins tell (`HoldsPinned`); so each call that keeps the nodes of any keeper keeps what is pinned as well. `PinReader` tells the nodes of one pin of the keeper in it, with the counters of that moment, and keeps all else that the keeper tells (`TellsPin`). What that is, a caller picks by `Around`.
//!
//! Leaves to others: what a keeper's pins are (`Pinner`), and what is asked of nodes.
#![tactic(auto)]

mod around;
mod reader;
mod under;

pub use around::Around;
pub use reader::PinReader;
pub use under::UnderPins;
