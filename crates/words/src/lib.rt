// No code: the words in which every crate's definitions are written, and their laws.
#![tactic(auto)]
