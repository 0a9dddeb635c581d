// The marked cases of the paper and further ones, computed from the definitions: the cases in specs/, one theorem in proofs/. No code, and nothing
// uses this crate, so that none waits for what is computed here.
#![tactic(auto)]
