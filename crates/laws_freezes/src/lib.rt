// Laws of the freezes of a list of names: the pass over the stored ones, and what it reads. See `specs/`.
#![tactic(auto)]
