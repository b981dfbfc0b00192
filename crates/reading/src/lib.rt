// The plain reading over any clockwork, and tellers, which say things one small step at a time. Definitions and laws, no code.
#![tactic(auto)]
