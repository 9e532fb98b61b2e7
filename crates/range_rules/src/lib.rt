// No code: what the call for a range of samples answers, and what is promised of it.
#![tactic(auto)]
