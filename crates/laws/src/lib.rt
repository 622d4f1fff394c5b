// Laws of the definitions: numbers, orders, maps. See `specs/`.
#![tactic(auto)]
