// For how many clocks something surely stays as it is: what the leaps of the channels share. A definition, no code.
#![tactic(auto)]
