// The command PIRSR and its reply PIRSA.
#![tactic(auto)]

pub mod command;
pub mod reply;
