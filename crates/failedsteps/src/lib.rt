// Row 28: the first step that did not go though all learned preconditions of its move are met in the state before it. The records of a book of good
// form are walked once more for it, once all of them have been observed.
// Uses filed for a step, grounding for its bound facts that hold, conflicts for the preconditions, turning for a state as a mask, states for where a list
// ends, observed for a move's sets, mask, answer, terms, limits, and the definitions of jobs and observed.
#![tactic(auto)]

ghost use Rattle.std.specs.Prelude.{◌≡◌, false, ℕ, length};
ghost use Rattle.limits.specs.Limits.{state_size};
ghost use Rattle.answer.specs.Answer.{Good, refuse};
ghost use Rattle.answer.specs.Refusal.{row_of};
ghost use Rattle.terms.specs.Head.{head_of};
ghost use Rattle.terms.specs.Sections.{sections_of};
ghost use Rattle.terms.specs.Schema.{schema};
ghost use Rattle.format.specs.Filed.{filed_step_at};
ghost use Rattle.format.specs.Lists.{list_at, list_end};
ghost use Rattle.format.specs.LookOver.{look_over};
ghost use Rattle.format.specs.Decode.{recorded_steps_at, steps_of_record};
ghost use Rattle.jobs.specs.Planning.{schema_of, steps_of_book};
ghost use Rattle.observed.specs.Begun.{Begun};
ghost use Rattle.observed.specs.Rules.{refuted_observed};
ghost use Rattle.failedsteps.specs.Met.{met_in, mask_before, refuted_at};
ghost use Rattle.failedsteps.specs.Asked.{BookAsked, StepAsked, ListAsked, StepsAsked, RecordAsked};

use answer::{Reason, Refusal};
use observed::SeenSet;
use terms::{Head, Sections};

// Whether all preconditions of the step at an offset are met in a state as a mask.
#[tactic(auto, unfolding(crate::specs::Met::met_in))]
fn met_in(s: &[u8], h: Sections, at: usize, state: &[u8], observed: &[u8]) -> bool
    requires { StepAsked h s.now at observed.now × (length state.now ≡ state_size) }
    ensures { result ≡ met_in (schema h s.now) observed.now (filed_step_at s.now at) state.now }
{
    let step = filed::read_step(s, at);
    let bound = observed::observed_set(observed, step.action, SeenSet::Bound);
    let mut held = mask::empty();
    grounding::mark_held(s, h, step.binding, &bound, state, &mut held);
    conflicts::needs_met(observed, step.action, held)
}

// The same in the state before the step: in a full book that of the list at `pre`, in a short one the mask `state`.
#[tactic(auto, unfolding(crate::specs::Met::mask_before))]
fn met_before(
    s: &[u8],
    short: bool,
    h: Sections,
    pre: usize,
    at: usize,
    state: &[u8],
    observed: &[u8],
) -> bool
    requires { StepAsked h s.now at observed.now × (length state.now ≡ state_size) × (short ≡ false → ListAsked h s.now pre) }
    ensures { result ≡ met_in (schema h s.now) observed.now (filed_step_at s.now at) (mask_before short s.now pre state.now) }
{
    if short {
        return met_in(s, h, at, state, observed);
    }
    let mut listed = mask::empty::<512>();
    turning::carry(s, true, pre, &mut listed, 0);
    met_in(s, h, at, &listed, observed)
}

// Row 28 of the step at an offset.
#[tactic(auto, unfolding(crate::specs::Met::refuted_at, answer::specs::Answer::refuse))]
fn refuted(
    s: &[u8],
    short: bool,
    h: Sections,
    pre: usize,
    at: usize,
    state: &[u8],
    observed: &[u8],
) -> Result<(), Refusal>
    requires { StepAsked h s.now at observed.now × (length state.now ≡ state_size) × (short ≡ false → ListAsked h s.now pre) }
    ensures { row_of result ≡ refuse (refuted_at short (schema h s.now) s.now pre at state.now observed.now) 28 at }
{
    if filed::went(s, at) {
        return Ok(());
    }
    if met_before(s, short, h, pre, at, state, observed) {
        return Err(Reason::FailedMet.at(at));
    }
    Ok(())
}

// The steps of a record, n of them, its first state being the list at `first`.
fn steps(
    s: &[u8],
    short: bool,
    h: Sections,
    n: usize,
    first: usize,
    observed: &[u8],
) -> Result<(), Refusal>
    requires { BookAsked h s.now observed.now × StepsAsked short h s.now n first }
    ensures { row_of result ≡ refuted_observed observed.now (recorded_steps_at short s.now n (list_at s.now first) (list_end s.now first)) }
{
    let mut state = mask::empty::<512>();
    let mut held = turning::carry(s, short, first, &mut state, 0);
    let mut pre = first;
    let mut at = states::list_end(s, first);
    for _ in 0..n {
        refuted(s, short, h, pre, at, &state, observed)?;
        pre = at + limits::STEP_SIZE;
        held = turning::carry(s, short, pre, &mut state, held);
        at = states::list_end(s, pre);
    }
    Ok(())
}

// The record at an offset.
fn record(
    s: &[u8],
    short: bool,
    h: Sections,
    head: Head,
    at: usize,
    observed: &[u8],
) -> Result<(), Refusal>
    requires { BookAsked h s.now observed.now × RecordAsked short h s.now at × (head ≡ head_of s.now at) }
    ensures { row_of result ≡ refuted_observed observed.now (steps_of_record short s.now at) }
{
    let first = at + limits::HEAD_SIZE + head.objects as usize;
    steps(s, short, h, head.steps as usize, first, observed)
}

// All records of a book of good form, `observed` being what is observed in it.
pub fn first_refuted(s: &[u8], short: bool, h: Sections, observed: &[u8]) -> Result<(), Refusal>
    requires { (h ≡ sections_of s.now) × ((n : ℕ) × (look_over short s.now ≡ Good n)) × Begun (schema_of s.now) observed.now }
    ensures { row_of result ≡ refuted_observed observed.now (steps_of_book short s.now) }
{
    let mut at = h.records.at as usize;
    for _ in 0..h.records.count {
        let head = Head::read(s, at);
        record(s, short, h, head, at, observed)?;
        at += head.length as usize;
    }
    Ok(())
}
