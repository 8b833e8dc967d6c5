//! The names of properties, as the commands see them.
//!
//! Promises: `name_property` of `on_desk` answers what the definition of its command in mail_tree says of every tree that the desk shows, and only looks at the nodes; what changes stands in the desk's draft. `check_named` says whether a property with an id may be set (`unless_nameless`).
//!
//! Leaves to others: how values hold names (`named_props`), and carrying the changes out.
#![tactic(auto)]

mod adding;
pub mod on_desk;
mod reading;
