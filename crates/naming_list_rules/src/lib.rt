// No code: what the naming list of a sample is, and what is promised of it: demand 3.
#![tactic(auto)]
