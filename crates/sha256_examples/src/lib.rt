// The examples of FIPS 180-4 as theorems about the definition: specs/Examples.antt. There is no code here.
#![tactic(auto)]
