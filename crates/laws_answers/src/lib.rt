// Laws of the values that come with answers. See `specs/`.
#![tactic(auto)]
