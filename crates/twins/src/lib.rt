// Two good books with the same transitions, such as one book in its two forms, get the same answers: statements in specs/, theorems in proofs/, no code.
#![tactic(auto)]
