// A log that passes: it is the text of exactly one machine and tree with its `stop`, and every such text passes. Laws about the definitions of
// `log_rules`, no code.
#![tactic(auto)]
