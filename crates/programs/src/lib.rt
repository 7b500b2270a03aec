//! Programs over words that wrap: what they are as words, their runs, and the laws of their points.

#![tactic(auto)]

pub mod reader;
pub mod step;
pub mod theorems;
