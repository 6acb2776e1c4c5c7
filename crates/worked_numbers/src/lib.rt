// The worked numbers of document 01 that are marked P, as one table under one theorem, and its measures of the store.
#![tactic(auto)]
