// Converting a book to the other form, and back: statements in specs/, theorems in proofs/, no code.
#![tactic(auto)]
