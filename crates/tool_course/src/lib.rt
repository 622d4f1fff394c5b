// A file's records, one after the other, on two images: one as it is, and one with the restarts.
#![tactic(auto)]

pub mod run;
pub mod turns;
mod verdicts;
