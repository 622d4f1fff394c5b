// Apply keeps images: what a record does to contents that fit leaves contents that fit. See `specs/`.
#![tactic(auto)]
