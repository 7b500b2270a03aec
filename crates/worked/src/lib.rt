//! The worked programs, damaged words and damaged texts, through the reader and the report.

#![tactic(auto)]

#[cfg(test)]
mod damaged;
#[cfg(test)]
mod reading;
#[cfg(test)]
mod refusals;
#[cfg(test)]
mod reports;
