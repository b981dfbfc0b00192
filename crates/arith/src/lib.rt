// Numbers and flags: the definitions that all contracts are written in, and laws of them. No code.
#![tactic(auto)]
