// Converting a book to the other form: the job. The new book is formed beside the lent output, so that a refusal leaves the output untouched.
// Uses answer, output, lookover, appending for the new book, rendering and the definitions of jobs.
#![tactic(auto)]

ghost use Rattle.answer.specs.Refusal.{answer_of};
ghost use Rattle.converting.specs.Outcome.{ConvertOutcome};

use answer::{Reason, Refusal};
use appending::Draft;

// The book is looked over, then the new length and the room in `out`; each may refuse. Nothing is learned; `short` says that the book is short.
pub fn convert(book: &[u8], short: bool, out: &mut [u8]) -> Result<usize, Refusal>
    ensures { ConvertOutcome short book.now out.old out.new (answer_of result) }
{
    lookover::look_over(book, short)?;
    let mut new = Draft::new();
    let size = rendering::form_converted(&mut new, book, short)?;
    if out.len() < size {
        return Err(Reason::Room.at(0));
    }
    output::write_bytes(out, 0, new.bytes());
    Ok(size)
}
