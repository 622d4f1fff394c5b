// Demand 3: a restart changes no later answer. See `specs/`.
#![tactic(auto)]
