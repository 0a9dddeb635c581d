// A plan and its goal over a state of facts as a mask of 512 bytes: the start state, the plan by the rules that are lent, and
// the goal at the end. Uses input, limits, terms, mask and stepping, and the definitions of format and statemask; each contract names its
// definition.
#![tactic(auto)]

ghost use Rattle.std.specs.Prelude.{◌≡◌, ◌+◌, ◌*◌, ◌≤◌, ◌<◌, length, IfSome};
ghost use Rattle.std.specs.Option.{unwrap_or};
ghost use Rattle.limits.specs.Limits.{fact_size, entry_size, far_ceiling};
ghost use Rattle.terms.specs.Schema.{schema};
ghost use Rattle.format.specs.Lists.{facts_at};
ghost use Rattle.format.specs.Order.{goal_from, plan_from, entry_at};
ghost use Rattle.statemask.specs.Statemask.{rules_in, start_mask, missed, misses};
ghost use Rattle.execution.specs.Execution.{Executable, Executes};

use terms::{Fact, Sections, Step};

// ---- the start

// The state in which a list of facts holds, and no other.
#[tactic(auto, using(crate::proofs::Start::facts_turns), unfolding(statemask::specs::Statemask::start_mask))]
pub fn start_mask(o: &[u8], n: usize, from: usize) -> [u8; limits::STATE_SIZE]
    requires { (from + fact_size * n ≤ far_ceiling) × (from + fact_size * n ≤ length o.now) }
    ensures { result ≡ start_mask (facts_at o.now n from) }
{
    let mut state: [u8; limits::STATE_SIZE] = mask::empty();
    for i in 0..n {
        let f = Fact::read(o, from + limits::FACT_SIZE * i);
        mask::set_bit(&mut state, f.number());
    }
    state
}

// ---- the plan

// Row 19: the number, from 1, of the first step that is inapplicable; the definition has 0 where none is. The state is the one in which the
// plan stopped or ended.
pub fn execute(
    book: &[u8],
    h: Sections,
    rules: &[u8],
    o: &[u8],
    steps: usize,
    from: usize,
    state: &mut [u8; limits::STATE_SIZE],
) -> Option<usize>
    requires { Executable rules.now o.now steps from }
    ensures executed { Executes (schema h book.now) (rules_in rules.now) (plan_from o.now steps from) state.old (unwrap_or result 0) state.new }
    ensures counted { IfSome result (λ k. 0 < k) }
{
    for k in 0..steps {
        let step = Step::read(o, from + limits::STEP_SIZE * k);
        if stepping::execute_step(book, h, step, rules, state) {
            return Some(k + 1);
        }
    }
    None
}

// ---- the goal

#[tactic(auto, using(crate::proofs::Goal::differ), unfolding(statemask::specs::Statemask::misses, format::specs::Order::entry_at))]
fn misses(o: &[u8], at: usize, state: &[u8; limits::STATE_SIZE]) -> bool
    requires { (at + entry_size ≤ far_ceiling) × (at + entry_size ≤ length o.now) }
    ensures { result ≡ misses state.now (entry_at o.now at) }
{
    let wanted = input::byte_at(o, at) == 1;
    let f = Fact::read(o, at + 1);
    wanted != mask::test_bit(state, f.number())
}

// Row 20: the number, from 1, of the first goal entry that the state misses; the definition has 0 where it misses none.
#[tactic(auto, using(crate::proofs::Goal::missed_turns))]
pub fn missed(o: &[u8], n: usize, from: usize, state: &[u8; limits::STATE_SIZE]) -> Option<usize>
    requires { (from + entry_size * n ≤ far_ceiling) × (from + entry_size * n ≤ length o.now) }
    ensures first { unwrap_or result 0 ≡ missed state.now (goal_from o.now n from) }
    ensures counted { IfSome result (λ k. 0 < k) }
{
    for i in 0..n {
        if misses(o, from + limits::ENTRY_SIZE * i, state) {
            return Some(i + 1);
        }
    }
    None
}
