// Two controllers' recordings part at the least count where they are not alike: the proofs stand in specs/.
#![tactic(auto)]
