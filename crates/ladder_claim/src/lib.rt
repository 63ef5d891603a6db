// What holds of every ladder: definitions and theorems, no code.
#![tactic(auto)]
