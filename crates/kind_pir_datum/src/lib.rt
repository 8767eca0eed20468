// The command PIRTR and its reply PIRTA.
#![tactic(auto)]

pub mod command;
pub mod reply;
