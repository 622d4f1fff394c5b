// Laws of Downgrade: after the listed records there is nothing to list, and the rest stays. See `specs/`.
#![tactic(auto)]
