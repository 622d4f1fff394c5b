// Laws of snapshots in the old form and the new one. See `specs/`.
#![tactic(auto)]
