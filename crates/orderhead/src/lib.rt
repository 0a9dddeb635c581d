// Rows 14 and 22 of the refusal table: the header of an order, its counts, and where its sections start.
// Uses answer, input, terms, limits and the definitions of format. `o` is the order.
#![tactic(auto)]

ghost use Rattle.std.specs.Prelude.{◌≡◌, ◌+◌, ◌*◌, ◌≤◌};
ghost use Rattle.answer.specs.Refusal.{answer_of};
ghost use Rattle.limits.specs.Limits.{header_size, max_objects, max_two, near_ceiling};
ghost use Rattle.format.specs.Order.{object_count, start_count, goal_count, step_count};
ghost use Rattle.format.specs.Order.{start_at, goal_at, steps_at, order_counts_bad, order_offsets_bad, order_header, order_objects};

use answer::{Reason, Refusal};
use terms::Objects;

const MAX_OBJECTS: u16 = limits::MAX_OBJECTS as u16;

const MAX_STEPS: u16 = limits::MAX_STEPS as u16;

// The counts. Each has a definition of its own, so each is a function; what reads them is one function, `input::two_at`.
#[tactic(auto, unfolding(format::specs::Order::object_count))]
pub fn object_count(o: &[u8]) -> u16
    ensures { result ≡ object_count o.now }
{
    input::two_at(o, 0)
}

#[tactic(auto, unfolding(format::specs::Order::start_count))]
pub fn start_count(o: &[u8]) -> u16
    ensures { result ≡ start_count o.now }
{
    input::two_at(o, 2)
}

#[tactic(auto, unfolding(format::specs::Order::goal_count))]
pub fn goal_count(o: &[u8]) -> u16
    ensures { result ≡ goal_count o.now }
{
    input::two_at(o, 4)
}

#[tactic(auto, unfolding(format::specs::Order::step_count))]
pub fn step_count(o: &[u8]) -> u16
    ensures { result ≡ step_count o.now }
{
    input::two_at(o, 6)
}

// Where the sections start: by the counts, and for the goal entries by the header, since the counts do not tell how long the starts are.
#[tactic(auto, unfolding(format::specs::Order::start_at))]
pub fn start_at(o: &[u8]) -> usize
    ensures { (result ≡ start_at o.now) × (result ≤ header_size + max_two) }
{
    limits::HEADER_SIZE + object_count(o) as usize
}

#[tactic(auto, unfolding(format::specs::Order::goal_at))]
pub fn goal_at(o: &[u8]) -> usize
    ensures { (result ≡ goal_at o.now) × (result ≤ max_two) }
{
    input::two_at(o, 12) as usize
}

#[tactic(auto, unfolding(format::specs::Order::steps_at))]
pub fn steps_at(o: &[u8]) -> usize
    ensures { (result ≡ steps_at o.now) × (result ≤ near_ceiling) }
{
    goal_at(o) + limits::ENTRY_SIZE * goal_count(o) as usize
}

#[tactic(auto, unfolding(format::specs::Order::order_objects))]
pub fn objects_of(o: &[u8]) -> Objects
    requires { object_count o.now ≤ max_objects }
    ensures { result ≡ order_objects o.now }
{
    Objects {
        count: object_count(o) as u8,
        at: limits::HEADER_SIZE,
    }
}

// Row 14 before the number of starts is asked: too short, or a count over its limit.
#[tactic(auto, unfolding(format::specs::Order::order_counts_bad))]
fn counts_bad(o: &[u8]) -> bool
    ensures { result ≡ order_counts_bad o.now }
{
    (o.len() < limits::HEADER_SIZE)
        | (MAX_OBJECTS < object_count(o))
        | (limits::MAX_ENTRIES < goal_count(o))
        | (MAX_STEPS < step_count(o))
}

// Row 14 after it: the sections touch, and the steps end the order.
#[tactic(auto, unfolding(format::specs::Order::order_offsets_bad))]
fn offsets_bad(o: &[u8]) -> bool
    ensures { result ≡ order_offsets_bad o.now }
{
    let objects = input::two_at(o, 8) as usize;
    let start = input::two_at(o, 10) as usize;
    let steps = input::two_at(o, 14) as usize;
    let first = start_at(o);
    let last = steps_at(o);
    (objects != limits::HEADER_SIZE)
        | (start != first)
        | (goal_at(o) < first)
        | (steps != last)
        | (o.len() != last + limits::STEP_SIZE * step_count(o) as usize)
}

// Rows 14 and 22: where the objects begin.
pub fn header(o: &[u8]) -> Result<usize, Refusal>
    ensures { answer_of result ≡ order_header o.now }
{
    if counts_bad(o) {
        return Err(Reason::OrderHeader.at(0));
    }
    if terms::out_of_range(limits::MAX_STARTS, start_count(o)) {
        return Err(Reason::Starts.at(0));
    }
    if offsets_bad(o) {
        return Err(Reason::OrderHeader.at(0));
    }
    Ok(limits::HEADER_SIZE)
}
