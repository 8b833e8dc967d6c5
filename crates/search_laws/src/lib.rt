//! What follows of every command on a tree with searches.
//!
//! Each command on a tree in order is answered or refused and leaves it in order (`stays_in_order`): whole, found by an opening, the searches those of its nodes and told from others' by them, and each running search lists what filtering all messages lists; where it was tidy, its rows are mirrors and its counts right still, those of attachments and of running searches too. A new store is in order and tidy (`starts_in_order`). What is in order is sound, tidy or not (`in_order_is_sound`).
//!
//! Leaves to others: the tree and the step (`mail_searches`), and the code that carries it out.
#![tactic(auto)]

mod law;

pub use law::{
    in_order_is_sound, makes_in_order, moves_in_order, removes_in_order, renames_in_order,
    sets_in_order, starts_in_order, stays_in_order,
};
