//! The codes that a frame is made of, save the Golay code.
#![tactic(auto)]

pub mod convolution;
pub mod crc;
pub mod interleave;
#[cfg(test)]
mod tests;
pub mod whitening;
