// The level after each clock, by the plain reading and by a run's records: definitions and laws.
#![tactic(auto)]
