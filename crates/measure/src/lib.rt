//! Measures weigh what was received for each dibit against what may have been sent.
#![tactic(auto)]

pub mod levels;
pub mod marks;
#[cfg(test)]
mod tests;
mod weighing;

pub use weighing::{Measure, MutedMarks};
