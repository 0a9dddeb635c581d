// Rows 19 and 20 of an order's plan: from one start, from each start, and with the lent end sheet.
// Uses execution, orderhead, states, input, answer, terms and limits, and the definitions of format, jobs and statemask.
// The state is a local mask, so that a refusal leaves the lent sheet untouched.
#![tactic(auto)]

ghost use Rattle.std.specs.Prelude.{◌≡◌, ◌≤◌, length};
ghost use Rattle.answer.specs.Refusal.{answer_of, positioned_of};
ghost use Rattle.limits.specs.Limits.{max_length, end_sheet_size};
ghost use Rattle.terms.specs.Schema.{schema};
ghost use Rattle.format.specs.Lists.{list_at, list_end};
ghost use Rattle.format.specs.Order.{start_count, start_at, step_count, steps_at, goal, plan};
ghost use Rattle.statemask.specs.Statemask.{rules_in, start_mask, execute};
ghost use Rattle.execution.specs.Execution.{Executable};
ghost use Rattle.starts.specs.Starts.{PlanExecuted, answer_from, StartsGood, answer_each, StartsOutcome};

use answer::{CheckRefusal, Reason, Refusal};
use terms::Sections;

// Rows 19 and 20, from a state on.
fn execute_plan(
    book: &[u8],
    h: Sections,
    rules: &[u8],
    o: &[u8],
    state: &mut [u8; limits::STATE_SIZE],
) -> Result<usize, Refusal>
    requires { Executable rules.now o.now (step_count o.now) (steps_at o.now) }
    ensures { PlanExecuted (execute (schema h book.now) (rules_in rules.now) (plan o.now) state.old 1) (step_count o.now) (goal o.now) state.new (answer_of result) }
{
    let steps = orderhead::step_count(o) as usize;
    if let Some(k) = execution::execute(book, h, rules, o, steps, orderhead::steps_at(o), state) {
        return Err(Reason::Inapplicable.at(k));
    }
    let entries = orderhead::goal_count(o) as usize;
    if let Some(k) = execution::missed(o, entries, orderhead::goal_at(o), state) {
        return Err(Reason::GoalMissed.at(k));
    }
    Ok(steps)
}

// The state of the start at an offset.
#[tactic(auto, unfolding(format::specs::Lists::list_at, format::specs::Lists::list_end))]
fn start_of(o: &[u8], at: usize) -> [u8; limits::STATE_SIZE]
    requires { (list_end o.now at ≤ max_length) × (list_end o.now at ≤ length o.now) }
    ensures { result ≡ start_mask (list_at o.now at) }
{
    execution::start_mask(o, input::two_at(o, at) as usize, at + limits::COUNT_SIZE)
}

// Rows 19 and 20 from the start at an offset.
#[tactic(auto, unfolding(crate::specs::Starts::answer_from, crate::specs::Starts::executed_from))]
fn run_start(book: &[u8], h: Sections, rules: &[u8], o: &[u8], at: usize) -> Result<usize, Refusal>
    requires { Executable rules.now o.now (step_count o.now) (steps_at o.now) × (list_end o.now at ≤ max_length) × (list_end o.now at ≤ length o.now) }
    ensures { answer_of result ≡ answer_from (schema h book.now) (rules_in rules.now) o.now (list_at o.now at) }
{
    let mut state = start_of(o, at);
    execute_plan(book, h, rules, o, &mut state)
}

// Rows 19 and 20 from each start: the first that fails, and its position.
fn run_each(book: &[u8], h: Sections, rules: &[u8], o: &[u8]) -> Result<usize, CheckRefusal>
    requires { Executable rules.now o.now (step_count o.now) (steps_at o.now) × StartsGood o.now (start_count o.now) (start_at o.now) }
    ensures { positioned_of result ≡ answer_each (schema h book.now) (rules_in rules.now) o.now }
{
    let mut at = orderhead::start_at(o);
    for i in 0..orderhead::start_count(o) as usize {
        run_start(book, h, rules, o, at).map_err(|r| CheckRefusal::AtStart(i + 1, r))?;
        at = states::list_end(o, at);
    }
    Ok(orderhead::step_count(o) as usize)
}

// Rows 19 and 20 from the only start; where neither is met, the end sheet.
fn run_only(
    book: &[u8],
    h: Sections,
    rules: &[u8],
    o: &[u8],
    end: &mut [u8],
) -> Result<usize, CheckRefusal>
    requires { Executable rules.now o.now (step_count o.now) (steps_at o.now) × StartsGood o.now (start_count o.now) (start_at o.now) × (start_count o.now ≡ 1) × (length end.old ≡ end_sheet_size) }
    ensures { StartsOutcome (schema h book.now) (rules_in rules.now) o.now end.old end.new (positioned_of result) }
{
    let mut state = start_of(o, orderhead::start_at(o));
    let ran = execute_plan(book, h, rules, o, &mut state);
    let place = ran.map_err(|r| CheckRefusal::AtStart(1, r))?;
    end.copy_from_slice(&state);
    Ok(place)
}

// Rows 19 and 20. With more than one start the end sheet is not written.
#[tactic(auto, using(crate::proofs::Starts::several_by))]
pub fn run_order(
    book: &[u8],
    h: Sections,
    rules: &[u8],
    o: &[u8],
    end: &mut [u8],
) -> Result<usize, CheckRefusal>
    requires { Executable rules.now o.now (step_count o.now) (steps_at o.now) × StartsGood o.now (start_count o.now) (start_at o.now) × (length end.old ≡ end_sheet_size) }
    ensures { StartsOutcome (schema h book.now) (rules_in rules.now) o.now end.old end.new (positioned_of result) }
{
    if orderhead::start_count(o) == 1 {
        return run_only(book, h, rules, o, end);
    }
    run_each(book, h, rules, o)
}
