// Rows 15 to 18 of the refusal table after rows 14 and 22: the objects, the starts, the goal entries and the plan steps of an order.
// Uses answer, input, limits, terms, tables, states, orderhead and the definitions of format. `book` has the schema, by its header `h`; `o` is the order.
// What suits is told by two tables of the order's objects, made once.
#![tactic(auto)]

ghost use Rattle.std.specs.Prelude.{◌≡◌, ◌+◌, ◌*◌, ◌≤◌, length};
ghost use Rattle.answer.specs.Refusal.{answer_of};
ghost use Rattle.answer.specs.Walk.{walk};
ghost use Rattle.terms.specs.Schema.{schema, typed_objects};
ghost use Rattle.terms.specs.Facts.{no_fact};
ghost use Rattle.terms.specs.Steps.{repeats};
ghost use Rattle.limits.specs.Limits.{header_size, max_objects, step_size, far_ceiling};
ghost use Rattle.format.specs.Filed.{as_written};
ghost use Rattle.format.specs.States.{state};
ghost use Rattle.format.specs.Order.{object_count, start_count, goal_count, step_count, start_at, goal_at, steps_at, order_objects};
ghost use Rattle.format.specs.Order.{order_object, starts_form, entries, plan_step_bad, plan_step, from_goal, from_start, order_form};
ghost use Rattle.tables.specs.Tables.{ForRightByKind, ForRightByPlace, RightForSome, RightFrom};

use answer::{Reason, Refusal};
use states::FactCursor;
use terms::{Sections, Step};

// Row 15 of each object.
fn objects(o: &[u8], kinds: u16) -> Result<usize, Refusal>
    ensures { answer_of result ≡ walk (order_object kinds o.now) (object_count o.now) header_size }
{
    let n = orderhead::object_count(o) as usize;
    answer::walk_entries(Reason::OrderObject, 1, n, limits::HEADER_SIZE, |at| {
        terms::out_of_range(kinds, input::byte_at(o, at) as u16)
    })
}

// Row 16 of each start, which is looked at as a state of a book is: where the last one ends.
fn starts(o: &[u8], table: &[u32; 512]) -> Result<usize, Refusal>
    requires { (goal_at o.now ≤ length o.now) × RightForSome table.now }
    ensures { ForRightByPlace table.now (λ sch ob. answer_of result ≡ walk (state as_written 16 sch ob o.now (goal_at o.now)) (start_count o.now) (start_at o.now)) }
{
    let end = orderhead::goal_at(o);
    let mut at = orderhead::start_at(o);
    for _ in 0..orderhead::start_count(o) {
        at = states::state(o, table, end, at).map_err(|wrong| Reason::Start.at(wrong.0))?;
    }
    Ok(at)
}

// Row 16: the starts, and no bytes left before the goal entries.
fn starts_form(o: &[u8], table: &[u32; 512]) -> Result<usize, Refusal>
    requires { (goal_at o.now ≤ length o.now) × RightForSome table.now }
    ensures { ForRightByPlace table.now (λ sch ob. answer_of result ≡ starts_form sch ob o.now) }
{
    let last = starts(o, table)?;
    let end = orderhead::goal_at(o);
    if last < end {
        return Err(Reason::Start.at(last));
    }
    Ok(end)
}

// Row 17 of each goal entry: a byte, then a fact, by the cursor that looks at a state's.
fn goal(o: &[u8], table: &[u32; 512]) -> Result<usize, Refusal>
    requires { steps_at o.now ≤ length o.now }
    ensures { ForRightByPlace table.now (λ sch ob. answer_of result ≡ entries sch ob o.now (goal_count o.now) no_fact (goal_at o.now)) }
{
    let mut c = FactCursor::new(
        limits::ENTRY_SIZE,
        orderhead::goal_count(o) as usize,
        orderhead::goal_at(o),
    );
    while 0 < c.left {
        let wanted = input::byte_at(o, c.at);
        if (1 < wanted) | c.bad(o, table) {
            return Err(Reason::GoalEntry.at(c.at));
        }
        c = c.next(o);
    }
    Ok(c.at)
}

// Row 18, of the step at an offset.
#[tactic(auto, unfolding(tables::specs::Tables::ForRightByKind, format::specs::Order::plan_step_bad))]
fn step_bad(book: &[u8], h: Sections, kinds: &[u32; 256], o: &[u8], at: usize) -> bool
    requires { (at ≤ far_ceiling) × (at + step_size ≤ length o.now) }
    ensures { ForRightByKind (schema h book.now) kinds.now (λ ob. result ≡ plan_step_bad (schema h book.now) ob o.now at) }
{
    let step = Step::read(o, at);
    tables::step_bad(book, h, kinds, step) | step.repeats()
}

// Row 18 of each plan step.
fn plan(book: &[u8], h: Sections, kinds: &[u32; 256], o: &[u8]) -> Result<usize, Refusal>
    requires { steps_at o.now + step_size * step_count o.now ≤ length o.now }
    ensures { ForRightByKind (schema h book.now) kinds.now (λ ob. answer_of result ≡ walk (plan_step (schema h book.now) ob o.now) (step_count o.now) (steps_at o.now)) }
{
    let n = orderhead::step_count(o) as usize;
    answer::walk_entries(
        Reason::PlanStep,
        limits::STEP_SIZE,
        n,
        orderhead::steps_at(o),
        |at| step_bad(book, h, kinds, o, at),
    )
}

// Rows 17 and 18.
fn from_goal(
    book: &[u8],
    h: Sections,
    kinds: &[u32; 256],
    table: &[u32; 512],
    o: &[u8],
) -> Result<usize, Refusal>
    requires { RightFrom (schema h book.now) kinds.now table.now × (steps_at o.now + step_size * step_count o.now ≤ length o.now) }
    ensures { ForRightByKind (schema h book.now) kinds.now (λ ob. answer_of result ≡ from_goal (schema h book.now) ob o.now) }
{
    goal(o, table)?;
    plan(book, h, kinds, o)
}

// Rows 16 to 18: the sections after the objects, by the tables of these. Goal entries are looked at after good starts.
fn from_start(book: &[u8], h: Sections, o: &[u8]) -> Result<usize, Refusal>
    requires { (object_count o.now ≤ max_objects) × (steps_at o.now + step_size * step_count o.now ≤ length o.now) }
    ensures { answer_of result ≡ from_start (schema h book.now) (typed_objects (order_objects o.now) o.now) o.now }
{
    let kinds = tables::kinds_of(book, h, o, orderhead::objects_of(o));
    let table = tables::table_of(book, h, &kinds);
    starts_form(o, &table)?;
    from_goal(book, h, &kinds, &table, o)
}

// Rows 14 to 18 in order: where the order ends, or the first refusal met.
pub fn order_form(book: &[u8], h: Sections, o: &[u8]) -> Result<usize, Refusal>
    ensures { answer_of result ≡ order_form (schema h book.now) o.now }
{
    orderhead::header(o)?;
    objects(o, h.kinds)?;
    from_start(book, h, o)
}
