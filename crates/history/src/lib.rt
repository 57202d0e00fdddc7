// No code: demand 3, as theorems about the definitions of the calls.
#![tactic(auto)]
