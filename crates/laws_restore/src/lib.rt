// A snapshot, restored, is the image that 01 names: laws of the contents. See `specs/`.
#![tactic(auto)]
