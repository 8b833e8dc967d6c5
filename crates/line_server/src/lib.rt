//! A server of lines: it cuts the input of a world into lines, has each answered, and says the replies.
//!
//! Promises, over any world and any answerer (`LineAnswerer`): the lines are those that `lines` cuts from the input, however it comes in pieces; each is answered once, in their order; a line of more than 1,048,576 bytes is answered once, that it is too long, and never by the answerer; each reply is said before the next line is answered; what answers lines may stop, and then that line is the last, and nothing is said to it (`StopTurn`); and each end has its cause (`ServerEnds`). Its memory is taken once, at the start.
//!
//! Leaves to others: what a line means, and what answering it does to the world (`LineAnswerer.answers`).
#![tactic(auto)]

mod answerer;
mod end;
mod input;
mod lines;
mod pieces;
mod server;
mod spoken;

pub use answerer::LineAnswerer;
pub use end::ServerEnd;
pub use server::serve;
pub use spoken::Spoken;
