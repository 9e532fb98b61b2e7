// No code: what the product promises, and the marked cases of document 01.
#![tactic(auto)]
