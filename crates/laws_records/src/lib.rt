// Laws of the record bytes: fields and their bytes, reading and writing. See `specs/`.
#![tactic(auto)]
