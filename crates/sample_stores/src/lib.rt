// Stores given by their records, for worked numbers and witnesses: definitions and theorems, no functions.
#![tactic(auto)]
