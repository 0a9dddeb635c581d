// Two good books with the same records in another sequence get the same answers: statements in specs/, theorems in proofs/, no code.
#![tactic(auto)]
