//! The search for the word that fits the readings of a block best.
#![tactic(auto)]

pub mod search;
mod steps;
pub mod work;
