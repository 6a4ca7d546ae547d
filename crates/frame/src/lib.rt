//! Frames: blocks and units, and how a frame is made of them.
#![tactic(auto)]

mod coding;
pub mod header;
#[cfg(test)]
mod tests;
