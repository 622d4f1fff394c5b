// What the tool's report says to exist in an image.
#![tactic(auto)]

pub mod exists;
