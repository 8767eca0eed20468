// A time of day, in hundredths of a second.
#![tactic(auto)]

pub mod read;
pub mod text;
