// The learner's walk over the records of a book, once and in file order: each looked over to its end, rows 6 to 10 and 27, and observed on the way.
// Uses this crate's root for one record, noticed for what the walk comes to, reader for where it stands, records for the book's tail, answer, terms, and the
// definitions of format and observed. Where a book is looked over alone, lookover walks, with nothing lent.
ghost use Rattle.std.specs.Prelude.{◌≤◌, false};
ghost use Rattle.limits.specs.Limits.{max_records};
ghost use Rattle.observerecords.specs.Observing.{held_with, CanObserve, RecordObserved, RecordsObserved};

use super::noticed::{Noticed, Walked};
use answer::Refusal;
use reader::Reader;
use terms::{Head, Sections};

// The record at which a reader stands, as `observe_record`.
pub fn observe<'a, 'b>(
    r: Reader<'a>,
    short: bool,
    h: Sections,
    observed: &'b mut [u8],
    noticed: Noticed,
) -> Result<Walked, Refusal>
    requires { CanObserve h r.src.now r.at observed.old }
    ensures { RecordObserved short h r.entry.src.now r.entry.at (held_with observed.old noticed) observed.new result }
{
    super::observe_record(r.src, short, h, r.at, observed, noticed)
}

// The record at an offset, by way of a reader that stands there.
pub fn observe_from(
    s: &[u8],
    at: usize,
    short: bool,
    h: Sections,
    observed: &mut [u8],
    noticed: Noticed,
) -> Result<Walked, Refusal>
    requires { CanObserve h s.now at observed.old }
    ensures { RecordObserved short h s.now at (held_with observed.old noticed) observed.new result }
{
    observe(Reader::new(s).moved(at), short, h, observed, noticed)
}

// A number of records, which end the book: each looked over and observed before the next. The value is the count of all their steps.
pub fn records(
    s: &[u8],
    short: bool,
    h: Sections,
    n: usize,
    from: usize,
    observed: &mut [u8],
) -> Result<Walked, Refusal>
    requires { CanObserve h s.now from observed.old × (n ≤ max_records) }
    ensures { RecordsObserved short h s.now n from (held_with observed.old (record { named = 0; failed = false })) observed.new result }
{
    let mut at = from;
    let mut total: usize = 0;
    let mut noticed = Noticed::default();
    // A count of two bytes: what is held from a record to the next is counted in bytes (docs/ARCHITECTURE.md).
    for _ in 0..n as u16 {
        let w = observe_from(s, at, short, h, observed, noticed)?;
        let head = Head::read(s, at);
        total += head.steps as usize;
        noticed = w.noticed;
        at = w.value;
    }
    let value = records::book_end(s, at, total)?;
    Ok(Walked { value, noticed })
}
