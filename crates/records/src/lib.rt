// Rows 6 to 10 and 27 of the refusal table, row 24 among them: one record of a book, to its end. In a short book the state is carried on from step to step.
// Uses answer, input, limits, mask, terms, filed, tables, states, turning, and the definitions of format.
#![tactic(auto)]

mod unchanged; // row 27, of a step that did not go

ghost use Rattle.answer.specs.Refusal.{answer_of};
ghost use Rattle.std.specs.Prelude.{◌≡◌, false, ◌+◌, ◌≤◌, length};
ghost use Rattle.answer.specs.Walk.{walk};
ghost use Rattle.terms.specs.Head.{head_of};
ghost use Rattle.terms.specs.Schema.{schema, typed_objects};
ghost use Rattle.limits.specs.Limits.{max_length, max_objects, max_relations, max_turns, step_size, near_ceiling};
ghost use Rattle.format.specs.Filed.{filed_fact};
ghost use Rattle.format.specs.Lists.{list_at};
ghost use Rattle.format.specs.Form.{most_listed};
ghost use Rattle.format.specs.States.{state};
ghost use Rattle.format.specs.Records.{head_bad, record_head, object, step_refused, steps, trajectory, closed, body, record_at};
ghost use Rattle.answer.specs.Answer.{Good};
ghost use Rattle.tables.specs.Tables.{ForRightByKind};
ghost use Rattle.records.specs.Readable.{scope_of, Readable, step_alone, step_listed};
ghost use Rattle.records.specs.Rows.{changes_listed, StepsListed, step_after, book_end};

use answer::{Reason, Refusal};
use terms::{Head, Objects, Sections};

// Row 6, of a head.
#[tactic(auto, unfolding(format::specs::Records::head_bad, format::specs::Records::objects_in, format::specs::Records::steps_in, format::specs::Records::length_in, format::specs::States::cut, terms::specs::Head::head_of))]
fn head_bad(s: &[u8], head: Head, at: usize) -> bool
    requires { (at ≤ max_length) × (head ≡ head_of s.now at) }
    ensures { result ≡ head_bad s.now at }
{
    let size = head.length as usize;
    (s.len() < at + limits::HEAD_SIZE)
        | (limits::MAX_OBJECTS < head.objects)
        | (limits::MAX_STEPS < head.steps)
        | (size < limits::HEAD_SIZE)
        | (s.len() < at + size)
}

// The rows of a record's head, 6 and then 24: where the record ends.
#[tactic(auto, using(crate::proofs::Laws::head_refused, crate::proofs::Laws::head_stepless, crate::proofs::Laws::head_right))]
pub fn record_head(s: &[u8], head: Head, at: usize) -> Result<usize, Refusal>
    requires { (at ≤ max_length) × (head ≡ head_of s.now at) }
    ensures { answer_of result ≡ record_head s.now at }
{
    if head_bad(s, head, at) {
        return Err(Reason::Record.at(at));
    }
    if head.steps == 0 {
        return Err(Reason::NoSteps.at(at));
    }
    Ok(at + head.length as usize)
}

// Row 7, for a number of objects.
pub fn objects(s: &[u8], kinds: u16, end: usize, n: usize, from: usize) -> Result<usize, Refusal>
    requires { (from ≤ near_ceiling) × (n ≤ 255) }
    ensures { answer_of result ≡ walk (object kinds s.now end) n from }
{
    answer::walk_entries(Reason::Object, 1, n, from, |at| {
        (end < at + 1) | terms::out_of_range(kinds, input::byte_at(s, at) as u16)
    })
}

// Row 9.
#[tactic(auto, using(crate::proofs::Parts::step_cut, crate::proofs::Parts::step_whole), unfolding(tables::specs::Tables::ForRightByKind))]
fn step_refused(book: &[u8], h: Sections, kinds: &[u32; 256], end: usize, at: usize) -> bool
    requires { (end ≤ length book.now) × (at ≤ max_length) }
    ensures { ForRightByKind (schema h book.now) kinds.now (λ ob. result ≡ step_refused (schema h book.now) ob book.now end at) × (result ≡ false → at + step_size ≤ end) }
{
    if end < at + limits::STEP_SIZE {
        return true;
    }
    tables::step_bad(book, h, kinds, filed::read_step(book, at))
}

// Rows 9 and 10: where the list behind the step starts.
#[tactic(auto, using(crate::proofs::Parts::alone_nine, crate::proofs::Parts::alone_ten, crate::proofs::Parts::alone_good), unfolding(tables::specs::Tables::ForRightByKind))]
pub fn step_alone(
    book: &[u8],
    h: Sections,
    kinds: &[u32; 256],
    end: usize,
    at: usize,
) -> Result<usize, Refusal>
    requires { (end ≤ length book.now) × (at ≤ max_length) }
    ensures { ForRightByKind (schema h book.now) kinds.now (λ ob. answer_of result ≡ step_alone (schema h book.now) ob book.now end at) }
{
    if step_refused(book, h, kinds, end, at) {
        return Err(Reason::Step.at(at));
    }
    if filed::read_step(book, at).repeats() {
        return Err(Reason::Repeated.at(at));
    }
    Ok(at + limits::STEP_SIZE)
}

// What a trajectory is read within: whether the book is short, its header, the record's objects, its number of steps, and where it ends.
#[derive(Clone, Copy)]
pub struct Scope {
    pub short: bool,
    pub h: Sections,
    pub objects: Objects,
    pub steps: usize,
    pub end: usize,
}

// How many facts a list after a step may have.
#[tactic(auto, unfolding(format::specs::Form::most_listed))]
pub fn most_listed(short: bool) -> u16
    ensures { (result ≡ most_listed short) × (result ≤ max_turns) }
{
    if short {
        limits::MAX_TURNS
    } else {
        limits::MAX_FACTS
    }
}

// Rows 9 and 10, then row 8 for the list after the step.
fn step(
    book: &[u8],
    c: Scope,
    kinds: &[u32; 256],
    table: &[u32; 512],
    at: usize,
) -> Result<usize, Refusal>
    requires { Readable book.now c kinds.now table.now × (at ≤ max_length) }
    ensures { answer_of result ≡ step_listed c.short (schema c.h book.now) (typed_objects c.objects book.now) book.now c.end at }
{
    let listed = step_alone(book, c.h, kinds, c.end, at)?;
    let next = states::list(most_listed(c.short), book, table, c.end, listed)?;
    Ok(next)
}

// The step at an offset, once the list behind it is good, by how many facts hold after it: row 8 for too many, then row 27, else where the next step
// starts.
#[tactic(auto, using(crate::proofs::Parts::after_many, crate::proofs::Parts::after_changed, crate::proofs::Parts::after_kept))]
#[inline(always)]
pub fn step_after(
    s: &[u8],
    short: bool,
    pre: usize,
    at: usize,
    held: usize,
    next: usize,
) -> Result<usize, Refusal>
    requires { StepsListed s.now short pre at }
    ensures { answer_of result ≡ step_after at held (changes_listed short s.now pre at) next }
{
    if (limits::MAX_FACTS as usize) < held {
        return Err(Reason::State.at(at + limits::STEP_SIZE));
    }
    if unchanged::changes(s, short, pre, at) {
        return Err(Reason::FailedChange.at(at));
    }
    Ok(next)
}

// The steps behind a record's first state, each with the state after it.
fn steps(
    book: &[u8],
    c: Scope,
    kinds: &[u32; 256],
    table: &[u32; 512],
    first: usize,
    from: usize,
) -> Result<usize, Refusal>
    requires { Readable book.now c kinds.now table.now × (first ≤ near_ceiling) × (from ≤ max_length) × (state (filed_fact c.short) 8 (schema c.h book.now) (typed_objects c.objects book.now) book.now c.end first ≡ Good from) }
    ensures { answer_of result ≡ steps c.short (schema c.h book.now) (typed_objects c.objects book.now) book.now c.end c.steps (list_at book.now first) from }
{
    let mut state: [u8; limits::STATE_SIZE] = mask::empty();
    let mut count = turning::carry(book, c.short, first, &mut state, 0);
    let mut pre = first;
    let mut at = from;
    for _ in 0..c.steps {
        let next = step(book, c, kinds, table, at)?;
        let listed = at + limits::STEP_SIZE;
        count = turning::carry(book, c.short, listed, &mut state, count);
        at = step_after(book, c.short, pre, at, count, next)?;
        pre = listed;
    }
    Ok(at)
}

// A state, then steps each with the state after it.
fn trajectory(
    book: &[u8],
    c: Scope,
    kinds: &[u32; 256],
    table: &[u32; 512],
    at: usize,
) -> Result<usize, Refusal>
    requires { Readable book.now c kinds.now table.now × (at ≤ near_ceiling) }
    ensures { answer_of result ≡ trajectory c.short (schema c.h book.now) (typed_objects c.objects book.now) book.now c.end c.steps at }
{
    let first = states::state(book, table, c.end, at)?;
    steps(book, c, kinds, table, at, first)
}

// What a record answers, by what its trajectory answers: row 6 where bytes are left behind the trajectory.
#[tactic(auto, using(crate::proofs::Laws::closed_stays, crate::proofs::Laws::closed_left))]
pub fn closed(trajectory: Result<usize, Refusal>, at: usize, end: usize) -> Result<usize, Refusal>
    ensures { answer_of result ≡ closed at end (answer_of trajectory) }
{
    let last = trajectory?;
    if last < end {
        return Err(Reason::Record.at(at));
    }
    Ok(end)
}

// What the trajectory of the record at an offset is read within, by its head.
#[tactic(auto, unfolding(crate::specs::Readable::scope_of))]
pub fn scope_of(short: bool, h: Sections, head: Head, at: usize, end: usize) -> Scope
    requires { at ≤ max_length }
    ensures { result ≡ scope_of short h head at end }
{
    Scope {
        short,
        h,
        objects: Objects {
            count: head.objects,
            at: at + limits::HEAD_SIZE,
        },
        steps: head.steps as usize,
        end,
    }
}

// A record whose head is right.
fn body(
    s: &[u8],
    short: bool,
    h: Sections,
    head: Head,
    at: usize,
    end: usize,
) -> Result<usize, Refusal>
    requires { (h.relations.count ≤ max_relations) × (at ≤ max_length) × (end ≤ max_length) × (end ≤ length s.now) × (head ≡ head_of s.now at) × (head.objects ≤ max_objects) }
    ensures { answer_of result ≡ body short h s.now at end }
{
    let c = scope_of(short, h, head, at, end);
    let first = objects(s, h.kinds, end, head.objects as usize, c.objects.at)?;
    let mut kinds = tables::empty();
    tables::put_objects(s, h, s, c.objects, &mut kinds);
    let mut table = tables::empty();
    tables::store_places(s, h, &kinds, &mut table);
    closed(trajectory(s, c, &kinds, &table, first), at, end)
}

// One record: where the next one starts.
pub fn record_at(s: &[u8], short: bool, h: Sections, at: usize) -> Result<usize, Refusal>
    requires { (h.relations.count ≤ max_relations) × (length s.now ≤ max_length) × (at ≤ max_length) }
    ensures { answer_of result ≡ record_at short h s.now at }
{
    let head = Head::read(s, at);
    let end = record_head(s, head, at)?;
    body(s, short, h, head, at, end)
}

// What a book answers once its last record has ended: row 6 where bytes are left, else the count of all steps.
#[tactic(auto, using(crate::proofs::Laws::end_left, crate::proofs::Laws::end_none))]
pub fn book_end(s: &[u8], last: usize, total: usize) -> Result<usize, Refusal>
    ensures { answer_of result ≡ book_end s.now last total }
{
    if last < s.len() {
        return Err(Reason::Record.at(last));
    }
    Ok(total)
}
