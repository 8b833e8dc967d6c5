//! The planner of commits of a file: it reads nodes on demand, and plans changes of them.
//!
//! A plan that is carried out makes the file lay the changed nodes under the new header, and what the planner adopts is right for it. A plan that is given up leaves nothing. `Full` and `IdsSpent` come just where the numbers say so, before anything is read. Nothing is placed in slots that pins hold (`IsHolding`), so that the trees of each pin stay.
//!
//! What stays and what goes is said of the two files (`Follows`): a node that isn't put has its entry still, of one that is put just the data blocks stay whose bytes and position do, and a block that no node reaches any more goes.
//!
//! It is made of what a scan of a file found. It leaves the scan to others.
#![tactic(auto)]

mod found;
mod freeing;
mod held;
mod old;
mod planner;
mod planning;
mod room;

pub use plan_drawing::PlanEffects;
pub use planner::FilePlanner;
