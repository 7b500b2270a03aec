//! Programs as people read them: steps with names and sums written out, and what is wrong with a text that holds none.

#![tactic(auto)]

pub mod messages;
mod names;
mod points;
mod program;
mod quotes;
pub mod refusal;
pub mod report;
mod steps;
mod sums;
