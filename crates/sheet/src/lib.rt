// Scoring a log, and the score sheet.
#![tactic(auto)]

pub mod closing;
pub mod fault;
pub mod score;
mod scoring;
mod sheet;
pub mod sheets;
mod sink;
pub mod text;
mod totals;
mod writing;
