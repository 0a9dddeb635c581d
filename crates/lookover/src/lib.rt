// Looking over a book of either form: rows 1 to 10 and 27 of the refusal table, for any bytes; a good answer is the count of all steps.
// Uses answer, terms, sections, records for the book's tail, the reader of one record, and the definitions of format. Nothing is observed; learning has a walk
// of its own (observerecords), which looks over and observes at once.
#![tactic(auto)]

ghost use Rattle.answer.specs.Refusal.{answer_of};
ghost use Rattle.std.specs.Prelude.{◌≡◌, ◌≤◌, length};
ghost use Rattle.terms.specs.Sections.{sections_of};
ghost use Rattle.limits.specs.Limits.{max_length, max_records, max_relations};
ghost use Rattle.format.specs.LookOver.{look_over, all_records};

use answer::Refusal;
use terms::{Head, Sections};

// A number of records, which end the book, walked once and in file order; a good answer is the count of all their steps.
fn records(s: &[u8], short: bool, h: Sections, n: usize, from: usize) -> Result<usize, Refusal>
    requires { (h.relations.count ≤ max_relations) × (length s.now ≤ max_length) × (from ≤ max_length) × (n ≤ max_records) }
    ensures { answer_of result ≡ all_records short h s.now n from }
{
    let mut at = from;
    let mut total: usize = 0;
    for _ in 0..n {
        let next = reader::record_from(s, at, short, h)?;
        total += Head::read(s, at).steps as usize;
        at = next;
    }
    records::book_end(s, at, total)
}

// The record at an offset, which ends the book; a good answer is the count of its steps.
#[tactic(auto, using(crate::proofs::Laws::last_refused, crate::proofs::Laws::last_ended))]
pub fn last_record(s: &[u8], short: bool, at: usize) -> Result<usize, Refusal>
    requires { (length s.now ≤ max_length) × (at ≤ max_length) × ((sections_of s.now).relations.count ≤ max_relations) }
    ensures { answer_of result ≡ all_records short (sections_of s.now) s.now 1 at }
{
    let h = Sections::read(s);
    let next = reader::record_from(s, at, short, h)?;
    records::book_end(s, next, Head::read(s, at).steps as usize)
}

#[tactic(auto, using(crate::proofs::Laws::look_over_stays, crate::proofs::Laws::look_over_records, format::proofs::Header::sections_good))]
pub fn look_over(s: &[u8], short: bool) -> Result<usize, Refusal>
    ensures { answer_of result ≡ look_over short s.now }
{
    let h = Sections::read(s);
    sections::sections(s, h)?;
    records(s, short, h, h.records.count as usize, h.records.at as usize)
}
