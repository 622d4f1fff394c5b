// Laws of the numbers of short histories. See `specs/`.
#![tactic(auto)]
