// What good form gives: every step and fact of a good book or order is right, and its numbers meet the hypotheses of `model`. No code.
#![tactic(auto)]
