//! Tests of forms in lent words: forms of a few rows and their laws, what insertions tell and leave, and refusals.

#![tactic(auto)]

#[cfg(test)]
mod insertions;
#[cfg(test)]
mod laws;
