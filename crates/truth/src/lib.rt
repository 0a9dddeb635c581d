// Laws of truth values, for every crate. No code.
#![tactic(auto)]
