// The litmus table: no code, only the table and its statement (specs/Table.antt) and the proof.

#![tactic(auto)]
