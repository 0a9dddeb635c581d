// Demands 2 and 3, stated whole over bytes, and what is stated beside them of two books, of each start alone and of the end sheet: statements in
// specs/, theorems in proofs/, no code.
#![tactic(auto)]
