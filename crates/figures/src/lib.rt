// No code: the figures of RULES.md, proved by computation in specs/.
#![tactic(auto)]
