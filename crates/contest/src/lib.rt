// Contests between two sides: what a contest is, the contests at the bottom, and the layers that stack one contest on another.
#![tactic(auto)]

pub mod contest;
pub mod counts;
mod depth;
pub mod fault;
pub mod goal;
pub mod hand;
pub mod level;
pub mod play;
pub mod race;
pub mod rally;
pub mod service;
pub mod side;
pub mod switch;
mod tally;
