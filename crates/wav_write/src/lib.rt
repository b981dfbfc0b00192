// Samples as bytes of a file: definition and laws.
#![tactic(auto)]
