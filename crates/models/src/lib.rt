// The memory models: no code, only definitions and theorems.

#![tactic(auto)]
