// What a record's bytes say, read under names of their own; an order's steps are read by `Step::read` alone.
// Uses limits, terms, and the definitions of format.
#![tactic(auto)]

ghost use Rattle.std.specs.Prelude.{◌≡◌, ◌+◌, ◌≤◌, ◌<◌, length};
ghost use Rattle.limits.specs.Limits.{step_size, far_ceiling};
ghost use Rattle.format.specs.Filed.{went_at, filed_step_at};

use terms::{Move, Step};

// Whether the step at an offset went.
#[tactic(auto, unfolding(format::specs::Filed::went_at, input::specs::Bytes::byte_at))]
pub fn went(s: &[u8], at: usize) -> bool
    requires { at < length s.now }
    ensures { result ≡ went_at s.now at }
{
    s[at] < limits::FAILED_MARK
}

// A step whose bytes are there. Its move is that without the mark of a step that did not go: by a remainder, since a branch at each step costs time.
pub fn read_step(s: &[u8], at: usize) -> Step
    requires { (at ≤ far_ceiling) × (at + step_size ≤ length s.now) }
    ensures { result ≡ filed_step_at s.now at }
{
    let step = Step::read(s, at);
    Step {
        action: Move(step.action.0 % limits::FAILED_MARK),
        ..step
    }
}
