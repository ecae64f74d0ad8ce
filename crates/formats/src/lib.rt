// The formats that matches are played in: their codes, names and piles.
#![tactic(auto)]

pub mod cases;
pub mod format;
pub mod piles;
pub mod play;
#[cfg(test)]
mod tests;
