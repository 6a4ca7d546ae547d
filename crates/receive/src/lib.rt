//! What the readings of a frame say: its FICH, or why there is none.
#![tactic(auto)]

pub mod fich;
mod words;
