//! The lists of searches, as commands change them.
//!
//! Promises: `with_results` gives a search other rows, counts it anew and brings the row that shows it in order, on a desk. `conclude` makes of what a command comes to in the tree what it comes to where there are searches (`concluded`): the lists follow the messages that it touches, and all that is written keeps to the limits. It asks the restriction of a running search of each touched message as it was and as it is, at most once each, and of no other message (`steps`).
//!
//! Leaves to others: what the definitions mean (`mail_searches`), and the commands themselves.
#![tactic(auto)]

mod concluding;
mod counting;
mod desk;
mod following;
mod forms;
mod moving;
mod on_keeper;
mod relisting;
mod results;
mod settling;
mod touched;

pub use concluding::conclude;
pub use counting::is_message;
pub use desk::SearchDesk;
pub use results::{results_table, with_results};
