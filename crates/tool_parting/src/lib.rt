// Where two images part: in their snapshots, and in what the topics' ids name.
#![tactic(auto)]

mod differences;
pub mod ids;
mod records_apart;
pub mod snapshots;
