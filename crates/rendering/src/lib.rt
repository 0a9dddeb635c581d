// Converting a book of good form to the other form, full or short: one function for both directions. In both, the list that is written after a step
// has the facts that are in the state before it or in the list that is read, but not in both of these. The state after the step is the list that is
// written if the book is short, and the list that is read if it is full.
// The new book is formed front to back; counts and lengths are copied first and renewed when they are known.
// Uses answer, input, limits, output, terms, appending for what is written, factlist for a list's facts, where a list ends from states, and the
// definitions of jobs and format.
#![tactic(auto)]

ghost use Rattle.std.specs.Prelude.{◌≡◌, [], not, ◌++◌, ◌+◌, ◌≤◌, ◌<◌, length};
ghost use Rattle.answer.specs.Refusal.{answer_of};
ghost use Rattle.limits.specs.Limits.{max_length, max_facts, step_size};
ghost use Rattle.format.specs.Lists.{list_at, list_end};
ghost use Rattle.format.specs.Toggled.{toggled};
ghost use Rattle.format.specs.Form.{state_after};
ghost use Rattle.format.specs.Decode.{recorded_step, recorded_steps_at};
ghost use Rattle.jobs.specs.Convert.{facts_bytes, list_bytes, filed_step_bytes, steps_bytes, record_bytes, records_bytes};
ghost use Rattle.appending.specs.Appended.{Appended};
ghost use Rattle.factlist.specs.Rest.{rest, FactsWithin};
ghost use Rattle.rendering.specs.Merge.{Merging, NextMerged};
ghost use Rattle.rendering.specs.Held.{state_list_size, Holds, AppendedHeld};
ghost use Rattle.rendering.specs.Good.{GoodBook, GoodList, GoodNext, GoodSteps, GoodTrajectory, GoodRecord, GoodRecords};
ghost use Rattle.rendering.specs.Formed.{trajectory_bytes, ConvertedFormed};

use answer::Refusal;
use appending::{Draft, PastEnd};
use factlist::ListCursor;
use terms::Sections;

// The longest state as a list.
const HELD_SIZE: usize = limits::COUNT_SIZE + limits::FACT_SIZE * limits::MAX_FACTS as usize;

// ---- the facts of a list

// Appends the facts of a list that are left.
fn append_rest(new: &mut Draft, s: &[u8], c: ListCursor) -> Result<(), PastEnd>
    requires { FactsWithin s.now c }
    ensures { Appended (facts_bytes (rest s.now c)) new.old new.new result }
{
    let at = c.at;
    let end = at + limits::FACT_SIZE * c.left as usize;
    new.append(&s[at..end])
}

// ---- the facts of two lists

// The facts to come of the state that holds and of the list of those that turn.
#[derive(Clone, Copy)]
struct Walk {
    held: ListCursor,
    turns: ListCursor,
}

// One fact more of a list, or of both. Facts stand in order, so of two that differ the one that precedes is in its list alone: it is written. A fact
// that comes next in both lists is left out.
// The walk goes on in place: one that is answered is copied at each fact.
#[inline(always)]
fn merge_next(new: &mut Draft, state: &[u8], book: &[u8], v: &mut Walk) -> Result<(), PastEnd>
    requires { Merging state.now book.now v.old × (0 < v.old.held.left) × (0 < v.old.turns.left) }
    ensures { NextMerged state.now book.now v.old new.old v.new new.new result }
{
    let p = v.held;
    let q = v.turns;
    let f = p.fact(state);
    let g = q.fact(book);
    if g.follows(f, f.key()) {
        new.append_fact(f)?;
        v.held = p.on();
        return Ok(());
    }
    if f.follows(g, g.key()) {
        new.append_fact(g)?;
        v.turns = q.on();
        return Ok(());
    }
    v.held = p.on();
    v.turns = q.on();
    Ok(())
}

// The facts of the state that do not stand in the book's list, and those of the list that are not in the state.
fn append_turned(new: &mut Draft, state: &[u8], book: &[u8], at: usize) -> Result<(), PastEnd>
    requires { Holds state.now × GoodList book.now at }
    ensures { Appended (facts_bytes (toggled (list_at state.now 0) (list_at book.now at))) new.old new.new result }
{
    let mut v = Walk {
        held: ListCursor::of_list(state, 0),
        turns: ListCursor::of_list(book, at),
    };
    while (0 < v.held.left) & (0 < v.turns.left) {
        merge_next(new, state, book, &mut v)?;
    }
    let p = v.held;
    let q = v.turns;
    append_rest(new, state, p)?;
    append_rest(new, book, q)
}

// ---- a list, and the state after it

// Those facts as a list. Its count is the book's until it is known.
fn append_list(new: &mut Draft, state: &[u8], book: &[u8], at: usize) -> Result<(), PastEnd>
    requires { Holds state.now × GoodList book.now at }
    ensures { Appended (list_bytes (toggled (list_at state.now 0) (list_at book.now at))) new.old new.new result }
{
    let start = new.len();
    let first = at + limits::COUNT_SIZE;
    new.append(&book[at..first])?;
    let from = new.len();
    append_turned(new, state, book, at)?;
    let end = new.len();
    new.renew_two(start, (end - from) / limits::FACT_SIZE);
    Ok(())
}

// The state becomes the list at an offset of a book.
fn hold(state: &mut [u8], s: &[u8], at: usize)
    requires { (length state.old ≡ state_list_size) × (list_end s.now at ≤ length s.now) × (length s.now ≤ max_length) × (length (list_at s.now at) ≤ max_facts) }
    ensures { list_at state.new 0 ≡ list_at s.now at }
{
    let end = states::list_end(s, at);
    output::write_bytes(state, 0, &s[at..end]);
}

// The list in the other form, and the state after it: in a short book the list that is written, in a full one the list that is read.
fn append_state(
    new: &mut Draft,
    state: &mut [u8],
    book: &[u8],
    at: usize,
    short: bool,
) -> Result<(), PastEnd>
    requires { Holds state.old × GoodNext short book.now (list_at state.old 0) at }
    ensures { AppendedHeld (list_bytes (toggled (list_at state.old 0) (list_at book.now at))) (state_after short book.now (list_at state.old 0) at) new.old new.new state.new result }
{
    let start = new.len();
    append_list(new, state, book, at)?;
    if short {
        hold(state, new.bytes(), start);
        return Ok(());
    }
    hold(state, book, at);
    Ok(())
}

// ---- steps and records

// A step and the state after it.
fn append_step(
    new: &mut Draft,
    state: &mut [u8],
    book: &[u8],
    at: usize,
    short: bool,
) -> Result<(), PastEnd>
    requires { Holds state.old × GoodNext short book.now (list_at state.old 0) (at + step_size) }
    ensures { AppendedHeld (filed_step_bytes (recorded_step short book.now (list_at state.old 0) at) ++ list_bytes (toggled (list_at state.old 0) (list_at book.now (at + step_size)))) (state_after short book.now (list_at state.old 0) (at + step_size)) new.old new.new state.new result }
{
    let next = at + limits::STEP_SIZE;
    new.append(&book[at..next])?;
    append_state(new, state, book, next, short)
}

fn append_steps(
    new: &mut Draft,
    state: &mut [u8],
    book: &[u8],
    from: usize,
    n: usize,
    short: bool,
) -> Result<(), PastEnd>
    requires { Holds state.old × GoodSteps short book.now n (list_at state.old 0) from }
    ensures { Appended (steps_bytes (not short) (recorded_steps_at short book.now n (list_at state.old 0) from)) new.old new.new result }
{
    let mut at = from;
    for _ in 0..n {
        append_step(new, state, book, at, short)?;
        at = states::list_end(book, at + limits::STEP_SIZE);
    }
    Ok(())
}

// A record from its first state on. The first state is written as a state after a step would be, the state before it being empty.
fn append_trajectory(
    new: &mut Draft,
    state: &mut [u8],
    book: &[u8],
    at: usize,
    n: usize,
    short: bool,
) -> Result<(), PastEnd>
    requires { (length state.old ≡ state_list_size) × GoodTrajectory short book.now n at }
    ensures { Appended (trajectory_bytes short book.now n at) new.old new.new result }
{
    output::write_two(state, 0, 0);
    append_state(new, state, book, at, short)?;
    append_steps(new, state, book, states::list_end(book, at), n, short)
}

// A record. Its length is the book's until it is known.
fn append_record(
    new: &mut Draft,
    state: &mut [u8],
    book: &[u8],
    at: usize,
    short: bool,
) -> Result<(), PastEnd>
    requires { (length state.old ≡ state_list_size) × GoodRecord short book.now at }
    ensures { Appended (record_bytes (not short) book.now at) new.old new.new result }
{
    let objects = input::byte_at(book, at) as usize;
    let steps = input::byte_at(book, at + 1) as usize;
    let first = at + limits::HEAD_SIZE + objects;
    let start = new.len();
    new.append(&book[at..first])?;
    append_trajectory(new, state, book, first, steps, short)?;
    let end = new.len();
    new.renew_two(start + 2, end - start);
    Ok(())
}

fn append_records(
    new: &mut Draft,
    state: &mut [u8],
    book: &[u8],
    from: usize,
    n: usize,
    short: bool,
) -> Result<(), PastEnd>
    requires { (length state.old ≡ state_list_size) × GoodRecords short book.now n from }
    ensures { Appended (records_bytes (not short) book.now n from) new.old new.new result }
{
    let mut at = from;
    for _ in 0..n {
        append_record(new, state, book, at, short)?;
        at += input::two_at(book, at + 2) as usize;
    }
    Ok(())
}

// ---- the book

const END_AT: usize = 14;

// The book in the other form, its length being the answer, whatever was formed before; `short` says that the book is short. The bytes before the records stay, but for the end.
pub fn form_converted(new: &mut Draft, book: &[u8], short: bool) -> Result<usize, Refusal>
    requires { GoodBook short book.now }
    ensures { ConvertedFormed short book.now new.new (answer_of result) }
{
    new.clear();
    let mut state = [0u8; HELD_SIZE];
    let h = Sections::read(book);
    let at = h.records.at as usize;
    new.append(&book[..at])?;
    append_records(new, &mut state, book, at, h.records.count as usize, short)?;
    let end = new.len();
    new.renew_two(END_AT, end);
    Ok(end)
}
