// The command PIRER and its reply PIREA.
#![tactic(auto)]

pub mod command;
pub mod reply;
