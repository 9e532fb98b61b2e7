// No code: what a sample delivers, what the calls on a bundle answer, and what is promised of both.
#![tactic(auto)]
