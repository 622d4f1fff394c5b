// Laws of Kafka's own record bytes: reading and writing undo each other. See `specs/`.
#![tactic(auto)]
