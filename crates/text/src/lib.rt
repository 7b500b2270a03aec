//! A program's words as text: decimal numbers below 2^32 with white space between them.
//! White space is a tab, a line feed, a carriage return or a space; a token is a longest run of other bytes.
//! A line whose first byte is `#` holds no numbers; the first line `# KEY ..` holds the names under that key.

#![tactic(auto)]

mod bytes;
pub mod lines;
mod modes;
pub mod names;
pub mod numbers;
pub mod places;
#[cfg(test)]
mod tests;
pub mod types;
