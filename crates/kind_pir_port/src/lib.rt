// The command PIRPR and its reply PIRPA.
#![tactic(auto)]

pub mod command;
pub mod reply;
