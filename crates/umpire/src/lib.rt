// A match between two sides as its umpire leads it: rallies are called, and each is settled as a point or as a let.
#![tactic(auto)]

pub mod calls;
pub mod matches;
pub mod play;
pub mod rally;
#[cfg(test)]
mod tests;
