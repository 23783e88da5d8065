// Demand 3 over bytes: no code, only the statement (specs/Soundness.antt) and its proof.

#![tactic(auto)]
