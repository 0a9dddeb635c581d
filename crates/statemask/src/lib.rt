// A plan executed over a state as a mask of 512 bytes, as definitions. No code.
#![tactic(auto)]
