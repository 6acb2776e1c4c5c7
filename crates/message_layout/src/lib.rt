// What a signed message says, how it is written, and that exactly the messages so written are accepted: definitions and theorems, no functions.
#![tactic(auto)]
