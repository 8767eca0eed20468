// One letter of a set: a status, a mode, a selection.
#![tactic(auto)]

pub mod range;
pub mod read;
pub mod text;
