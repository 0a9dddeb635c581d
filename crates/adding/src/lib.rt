// Adding a record to a book of either form, the record being in the book's form. The new book is formed beside the lent output and its record looked over there, so that a refusal
// leaves the output untouched. Uses answer, input, limits, output, terms, lookover and the definitions of jobs. Each record of the new book is read once.
#![tactic(auto)]

ghost use Rattle.answer.specs.Refusal.{answer_of};
ghost use Rattle.std.specs.Prelude.{◌≡◌, ◌+◌, ◌-◌, ◌≤◌, length};
ghost use Rattle.limits.specs.Limits.{header_size, max_length};
ghost use Rattle.jobs.specs.Add.{added};
ghost use Rattle.output.specs.Written.{written};
ghost use Rattle.adding.specs.Outcome.{AddOutcome};

use answer::{Reason, Refusal};
use terms::Sections;

const COUNT_AT: usize = 6;

const END_AT: usize = 14;

// Memory is cleared before the new book is formed in it, which takes time. A book and a record, each of up to this length, get memory of twice this
// length; all others get memory for the longest book.
const SMALL: usize = 4096;

// The new book: the old one with the record after it, record count and end renewed.
fn form(new: &mut [u8], book: &[u8], bytes: &[u8])
    requires { (header_size ≤ length book.now) × (length book.now + length bytes.now ≤ length new.old) }
    ensures { new.new ≡ written new.old 0 (added book.now bytes.now) }
{
    let count = input::two_at(book, COUNT_AT) as usize;
    output::write_bytes(new, 0, book);
    output::write_bytes(new, book.len(), bytes);
    output::write_two(new, COUNT_AT, count + 1);
    output::write_two(new, END_AT, book.len() + bytes.len());
}

// How many bytes may follow a book up to the greatest length. The new length is tested by this difference: a sum would wrap for a length that no
// memory has, such as -1 in C.
fn room_behind(book: &[u8]) -> usize
    requires { length book.now ≤ max_length }
    ensures { length book.now + result ≡ max_length }
{
    limits::MAX_LENGTH - book.len()
}

// The job, by way of memory in which the new book is formed. The memory is long enough for the new book or, if that would be too long, for the longest:
// a - (a - b) is the smaller of a and b. Behind a good old book only the record count and the record itself can be refused.
fn add_by(
    new: &mut [u8],
    book: &[u8],
    short: bool,
    bytes: &[u8],
    out: &mut [u8],
) -> Result<usize, Refusal>
    requires { (length book.now + length bytes.now) - ((length book.now + length bytes.now) - max_length) ≤ length new.old }
    ensures { AddOutcome short book.now bytes.now out.old out.new (answer_of result) }
{
    lookover::look_over(book, short)?;
    if room_behind(book) < bytes.len() {
        return Err(Reason::BookLength.at(0));
    }
    let size = book.len() + bytes.len();
    let h = Sections::read(book);
    if limits::MAX_RECORDS <= h.records.count {
        return Err(Reason::BookCounts.at(0));
    }
    form(new, book, bytes);
    lookover::last_record(&new[..size], short, book.len())?;
    if out.len() < size {
        return Err(Reason::Room.at(0));
    }
    output::write_bytes(out, 0, &new[..size]);
    Ok(size)
}

// The old book is looked over, then the new length, the new book and the room in `out`; each may refuse.
pub fn add(book: &[u8], short: bool, bytes: &[u8], out: &mut [u8]) -> Result<usize, Refusal>
    ensures { AddOutcome short book.now bytes.now out.old out.new (answer_of result) }
{
    if book.len() <= SMALL && bytes.len() <= SMALL {
        let mut new = [0u8; 2 * SMALL];
        return add_by(&mut new, book, short, bytes, out);
    }
    let mut new = [0u8; limits::MAX_LENGTH];
    add_by(&mut new, book, short, bytes, out)
}
