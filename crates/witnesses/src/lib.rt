// A concrete input for each number that an operation can answer, as one table under one theorem: definitions and theorems, no functions.
#![tactic(auto)]
