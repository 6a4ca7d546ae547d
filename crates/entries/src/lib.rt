//! What is found in a recording, entry by entry: the lists of it, their lines in order, and the text of a line.
#![tactic(auto)]

pub mod bounded;
pub mod entry;
pub mod merge;
#[cfg(test)]
mod tests;
pub mod text;
