// Request 13: two writes to different channels, in either order. Definitions and laws, no code.
#![tactic(auto)]
