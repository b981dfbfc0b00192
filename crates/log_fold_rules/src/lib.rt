// What a log comes out as when copies of its lines are folded into loops, and that it stands for the same. Definitions and laws, no code.
#![tactic(auto)]
