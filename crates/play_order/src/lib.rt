// Request 13 in a log: two write lines to different channels, in either order. Definitions and laws, no code.
#![tactic(auto)]
