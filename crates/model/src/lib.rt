// Action models, what is learned from transitions, and the judge: definitions in specs/, theorems in proofs/, no code.
#![tactic(auto)]
