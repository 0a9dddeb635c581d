// Facts that suit, lists of them in order, the state that a list is, and states in which facts turn: what good form gives of a list of facts.
// Theorems for looking over and for what stands above it; no code.
#![tactic(auto)]
