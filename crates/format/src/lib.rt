// The form of a book and of an order, as definitions: rows 1 to 10, 27 and 14 to 18 of the refusal table, and what good bytes decode to.
// No code: the crates above it prove theirs equal to these.
#![tactic(auto)]
