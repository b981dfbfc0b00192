// Demand 3: lists of runs, by what a run answers. Definitions and laws, no code.
#![tactic(auto)]
