// The marked cases of document 01: specs/Marked.antt has the table and the one statement over it.
#![tactic(auto)]
