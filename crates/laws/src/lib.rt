// No code: the theorems of specs/, which every other crate cites.
#![tactic(auto)]
