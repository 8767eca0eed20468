// Files of any length gone over in turns: the lines of a log, the entries of an index.
#![tactic(auto)]

pub mod entries;
pub mod lines;
