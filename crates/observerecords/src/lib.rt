// One record of a book looked over and observed at once, rows 6 to 10 and 27: each list of facts is read once for both, and the state of a short book's record is
// carried on once.
// Uses noticed for what the walk over steps notices, records for the parts of a record that are no lists, states for the first state, observestep for a list behind
// a step, lifting for the table that it is lent, turning for a short book's state, filed, tables, mask, answer, limits, terms, and the definitions of format and
// observed.
#![tactic(auto)]

pub mod noticed; // what a walk notices and comes to
pub mod walk; // the records of a book, one after the other

ghost use Rattle.std.specs.Prelude.{◌≡◌, true, ◌+◌, ◌≤◌, length, IfOk};
ghost use Rattle.limits.specs.Limits.{max_length, max_objects, max_relations, max_moves, step_size, state_size, near_ceiling};
ghost use Rattle.answer.specs.Answer.{Good};
ghost use Rattle.answer.specs.Refusal.{answer_by};
ghost use Rattle.terms.specs.Schema.{schema};
ghost use Rattle.terms.specs.Typing.{Falling};
ghost use Rattle.format.specs.Filed.{went_at, filed_fact};
ghost use Rattle.format.specs.Lists.{list_at, list_end};
ghost use Rattle.format.specs.Form.{most_listed};
ghost use Rattle.format.specs.States.{list, state};
ghost use Rattle.format.specs.Records.{steps, trajectory, body};
ghost use Rattle.format.specs.Decode.{recorded_steps_at, steps_of_record};
ghost use Rattle.states.specs.Looked.{ListLooked};
ghost use Rattle.mask.specs.Sets.{cardinality};
ghost use Rattle.turning.specs.Turning.{Carried};
ghost use Rattle.observed.specs.Observed.{observe_all};
ghost use Rattle.observed.specs.Begun.{Begun};
ghost use Rattle.terms.specs.Head.{head_of};
ghost use Rattle.records.specs.Readable.{schema_in, typed_in, step_listed};
ghost use Rattle.lifting.specs.Pairs.{no_digits};
ghost use Rattle.observerecords.specs.Observing.{held_with, CanObserve, Observable, ObservableBy, Ready, Whole, DoneReady, Observes, RecordObserved};

use answer::Refusal;
use noticed::{Noticed, Walked};
use observestep::Noted;
use records::Scope;
use terms::{Head, Sections};

// The list behind a step of which nothing is observed, looked over; in a short book its facts turn.
fn pass_list(
    book: &[u8],
    c: Scope,
    table: &[u32; 512],
    at: usize,
    state: &mut [u8],
    held: usize,
    named: usize,
) -> Result<Noted, Refusal>
    requires { ObservableBy book.now c table.now × (at + step_size ≤ c.end) × (length state.old ≡ state_size) × (c.short ≡ true → held ≡ cardinality state.old) }
    ensures answer_value { answer_by (λ m. m.next) result ≡ list (filed_fact c.short) 8 (most_listed c.short) (schema_in book.now c) (typed_in book.now c) book.now c.end (at + step_size) }
    ensures good { IfOk result (λ m. (m.named ≡ named) × Carried c.short book.now (at + step_size) state.old state.new m.count) }
{
    let listed = at + limits::STEP_SIZE;
    let most = records::most_listed(c.short);
    let next = states::list(most, book, table, c.end, listed)?;
    let count = turning::carry(book, c.short, listed, state, held);
    Ok(Noted { next, named, count })
}

// The whole list behind the step at an offset, which went, observed. The facts before the step are, in a full book, the list at `pre`; in a short
// book they are the mask `state`, in which the facts of the list turn.
fn observe_list(
    book: &[u8],
    c: Scope,
    table: &[u32; 512],
    pre: usize,
    at: usize,
    t: &mut [u8],
    state: &mut [u8],
    held: usize,
    observed: &mut [u8],
    named: usize,
) -> Result<Noted, Refusal>
    requires { ObservableBy book.now c table.now × Ready book.now c pre state.old held observed.old × Whole book.now c at × (went_at book.now at ≡ true) × (t.old ≡ no_digits) }
    ensures list_looked { ListLooked book.now table.now (at + step_size) (answer_by (λ m. m.next) result) }
    ensures good { IfOk result (λ m. (t.new ≡ no_digits) × DoneReady book.now c pre at state.old held observed.old named state.new observed.new m) }
{
    if c.short {
        return observestep::observe_turned(book, c.h, table, at, t, state, held, observed, named);
    }
    observestep::observe(book, table, pre, at, t, observed, named)
}

// A step and the list behind it, which is observed as it is looked over, where it is whole; a step that did not go is passed over.
fn observe_step(
    book: &[u8],
    c: Scope,
    kinds: &[u32; 256],
    table: &[u32; 512],
    pre: usize,
    at: usize,
    t: &mut [u8],
    state: &mut [u8],
    held: usize,
    observed: &mut [u8],
    named: usize,
) -> Result<Noted, Refusal>
    requires { Observable book.now c kinds.now table.now × Ready book.now c pre state.old held observed.old × (at ≤ max_length) × (t.old ≡ no_digits) }
    ensures answer_value { answer_by (λ m. m.next) result ≡ step_listed c.short (schema_in book.now c) (typed_in book.now c) book.now c.end at }
    ensures good { IfOk result (λ m. (t.new ≡ no_digits) × DoneReady book.now c pre at state.old held observed.old named state.new observed.new m) }
{
    let listed = records::step_alone(book, c.h, kinds, c.end, at)?;
    if !filed::went(book, at) {
        return pass_list(book, c, table, at, state, held, named);
    }
    // Row 8 refuses a list that is not whole, so nothing of it is passed over.
    if !states::is_whole(book, records::most_listed(c.short), c.end, listed) {
        return pass_list(book, c, table, at, state, held, named);
    }
    observe_list(book, c, table, pre, at, t, state, held, observed, named)
}

// The steps behind a record's first state, each observed, as `records::steps` looks them over.
fn observe_steps(
    s: &[u8],
    c: Scope,
    kinds: &[u32; 256],
    table: &[u32; 512],
    first: usize,
    from: usize,
    observed: &mut [u8],
    noticed: Noticed,
) -> Result<Walked, Refusal>
    requires observable { Observable s.now c kinds.now table.now × Begun (schema_in s.now c) observed.old }
    requires first_state { (first ≤ near_ceiling) × (from ≤ max_length) × (state (filed_fact c.short) 8 (schema_in s.now c) (typed_in s.now c) s.now c.end first ≡ Good from) }
    ensures { Observes (schema_in s.now c) (steps c.short (schema_in s.now c) (typed_in s.now c) s.now c.end c.steps (list_at s.now first) from) (observe_all (recorded_steps_at c.short s.now c.steps (list_at s.now first) from) (held_with observed.old noticed)) observed.new result }
{
    let mut t = lifting::no_digits();
    let mut state = mask::empty::<512>();
    let mut held = turning::carry(s, c.short, first, &mut state, 0);
    let mut pre = first;
    let mut at = from;
    let mut found = noticed;
    for _ in 0..c.steps {
        let r = observe_step(
            s,
            c,
            kinds,
            table,
            pre,
            at,
            &mut t,
            &mut state,
            held,
            observed,
            found.named,
        )?;
        records::step_after(s, c.short, pre, at, r.count, r.next)?;
        found = noticed::notice(s, at, r.named, found.failed);
        pre = at + limits::STEP_SIZE;
        held = r.count;
        at = r.next;
    }
    Ok(Walked {
        value: at,
        noticed: found,
    })
}

// A state, then steps each with the state after it, as `records::trajectory`.
fn observe_trajectory(
    book: &[u8],
    c: Scope,
    kinds: &[u32; 256],
    table: &[u32; 512],
    at: usize,
    observed: &mut [u8],
    noticed: Noticed,
) -> Result<Walked, Refusal>
    requires { Observable book.now c kinds.now table.now × Begun (schema_in book.now c) observed.old × (at ≤ near_ceiling) }
    ensures { Observes (schema_in book.now c) (trajectory c.short (schema_in book.now c) (typed_in book.now c) book.now c.end c.steps at) (observe_all (recorded_steps_at c.short book.now c.steps (list_at book.now at) (list_end book.now at)) (held_with observed.old noticed)) observed.new result }
{
    let from = states::state(book, table, c.end, at)?;
    observe_steps(book, c, kinds, table, at, from, observed, noticed)
}

// A record whose head is right, as `records::body`.
fn observe_body(
    s: &[u8],
    short: bool,
    h: Sections,
    head: Head,
    at: usize,
    end: usize,
    observed: &mut [u8],
    noticed: Noticed,
) -> Result<Walked, Refusal>
    requires header { (h.relations.count ≤ max_relations) × (h.moves.count ≤ max_moves) × Falling (schema h s.now) × Begun (schema h s.now) observed.old }
    requires head { (at ≤ max_length) × (end ≤ max_length) × (end ≤ length s.now) × (head ≡ head_of s.now at) × (head.objects ≤ max_objects) }
    ensures { Observes (schema h s.now) (body short h s.now at end) (observe_all (steps_of_record short s.now at) (held_with observed.old noticed)) observed.new result }
{
    let c = records::scope_of(short, h, head, at, end);
    let first = records::objects(s, h.kinds, end, head.objects as usize, c.objects.at)?;
    let kinds = tables::kinds_of(s, h, s, c.objects);
    let table = tables::table_of(s, h, &kinds);
    let w = observe_trajectory(s, c, &kinds, &table, first, observed, noticed)?;
    let value = records::closed(Ok(w.value), at, end)?;
    Ok(Walked {
        value,
        noticed: w.noticed,
    })
}

// The record at an offset, as `records::record_at`: where the next one starts, and what is held after it.
pub fn observe_record(
    s: &[u8],
    short: bool,
    h: Sections,
    at: usize,
    observed: &mut [u8],
    noticed: Noticed,
) -> Result<Walked, Refusal>
    requires { CanObserve h s.now at observed.old }
    ensures { RecordObserved short h s.now at (held_with observed.old noticed) observed.new result }
{
    let head = Head::read(s, at);
    let end = records::record_head(s, head, at)?;
    observe_body(s, short, h, head, at, end, observed, noticed)
}
