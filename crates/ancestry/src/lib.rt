// Demand 3 and the statistics of verification over any commits, parents and generations: definitions and proofs, no code.
#![tactic(auto)]
