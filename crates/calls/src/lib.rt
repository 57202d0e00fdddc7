// No code: every call as a value, and what it does.
#![tactic(auto)]
