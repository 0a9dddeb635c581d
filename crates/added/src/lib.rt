// What adding a record does to a book: the record is read back as it was filed, the rest stays, and a record without steps is refused.
// Statements and their proofs over the definition of adding; no code.
#![tactic(auto)]
