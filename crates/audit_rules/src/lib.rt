// No code: what an audit of a bundle says of each sample, and what is promised of it.
#![tactic(auto)]
