// K1 to K16 of document 01, about the definitions that the contracts cite: definitions and proofs, no code.
#![tactic(auto)]
