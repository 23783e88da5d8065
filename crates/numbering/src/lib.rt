// Numbering: no code, only the statements (specs/Numbering.antt, specs/Answers.antt) and their proofs.

#![tactic(auto)]
