// The marked cases: see `specs/`.
#![tactic(auto)]
