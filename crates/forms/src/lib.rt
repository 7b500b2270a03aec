//! Howell forms in lent words of 32 bits: a row inserted into a form, and the laws of a form told.

#![tactic(auto)]

pub mod clear;
pub mod insert;
pub mod row;
mod rows;
mod table;
pub mod tell;
mod words;
