//! The frame information channel (FICH): its fields, and the settings that a sender chooses.
#![tactic(auto)]

pub mod fich;
mod received;
pub mod settings;
