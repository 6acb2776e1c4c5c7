// Theorems alone (specs/Pages): what the console's three pages show, and that they speak of the same certificates. No functions.
#![tactic(auto)]
