// Some number below a bound, some member of a list, the first and the least with a property, membership: definitions and their laws, for every crate.
// No code.
#![tactic(auto)]
