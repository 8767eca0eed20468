// Masks of hex digits, rates and codes: the settings of a receiver.
#![tactic(auto)]

pub mod plain;
pub mod range;
pub mod read;
pub mod text;
