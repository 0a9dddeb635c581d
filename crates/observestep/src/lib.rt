// What the learner has observed, before any record and after a step: seven sets of bound facts (lifted atoms) for each move, and the first step
// that row 11 names. Uses atoms for the bound facts of a move, stepmasks for those of a step, with row 8 of the list behind it, mask for the sets, terms, filed,
// answer, limits, and where the sets stand from observed; the contracts cite observed, format and states, and specs/Notes.antt for the parts.
#![tactic(auto)]

ghost use Rattle.std.specs.Prelude.{◌≡◌, ◌+◌, ◌≤◌, IfOk, length};
ghost use Rattle.limits.specs.Limits.{max_length, max_moves, step_size, set_size, observed_size};
ghost use Rattle.mask.specs.Sets.{difference, empty, cardinality};
ghost use Rattle.terms.specs.Schema.{schema};
ghost use Rattle.format.specs.Filed.{filed_step_at};
ghost use Rattle.format.specs.Lists.{list_at, list_end};
ghost use Rattle.format.specs.Form.{full};
ghost use Rattle.observed.specs.Observed.{noted, nothing_seen, first_named};
ghost use Rattle.answer.specs.Refusal.{answer_by};
ghost use Rattle.states.specs.Looked.{ListLooked};
ghost use Rattle.lifting.specs.Pairs.{no_digits};
ghost use Rattle.stepmasks.specs.Marks.{Suited, RightForFew};
ghost use Rattle.observestep.specs.Notes.{narrowed, widened, observed_step, IsObserved, first_sets, StepTurnable, TurnObserved};

use answer::Refusal;
use observed::SeenSet;
use terms::{Move, Sections};

// ---- after a step: its sets come by value, so that they share no memory with what is observed. Where a set ends is given: were it computed here, the
// compiler would write out each of these loops and call it, four times a step.

fn narrow(observed: &mut [u8], at: usize, end: usize, m: [u8; 32])
    requires { (end ≡ at + set_size) × (end ≤ length observed.old) }
    ensures { observed.new ≡ narrowed at m observed.old }
{
    mask::intersect(&mut observed[at..end], &m);
}

fn widen(observed: &mut [u8], at: usize, end: usize, m: [u8; 32])
    requires { (end ≡ at + set_size) × (end ≤ length observed.old) }
    ensures { observed.new ≡ widened at m observed.old }
{
    mask::unite(&mut observed[at..end], &m);
}

// Only what is in `to` and not in `from` changed: an effect is a change seen.
fn widen_by_change(observed: &mut [u8], at: usize, from: [u8; 32], to: [u8; 32])
    requires { at + set_size ≤ length observed.old }
    ensures { observed.new ≡ widened at (difference to from) observed.old }
{
    let end = at + limits::SET_SIZE;
    mask::unite_difference(&mut observed[at..end], &to, &from);
}

// One step of a move, by its bound facts before and after it, in the move's six sets of what is seen.
fn note(observed: &mut [u8], a: Move, before: [u8; 32], after: [u8; 32])
    requires { (1 ≤ a.0) × (a.0 ≤ max_moves) × (length observed.old ≡ observed_size) }
    ensures { observed.new ≡ noted a.0 before after observed.old }
{
    let always_before = observed::set_at(a, SeenSet::AlwaysBefore);
    let ever_before = observed::set_at(a, SeenSet::EverBefore);
    let always_after = observed::set_at(a, SeenSet::AlwaysAfter);
    let ever_after = observed::set_at(a, SeenSet::EverAfter);
    let added = observed::set_at(a, SeenSet::Added);
    let deleted = observed::set_at(a, SeenSet::Deleted);
    narrow(
        observed,
        always_before,
        always_before + limits::SET_SIZE,
        before,
    );
    widen(
        observed,
        ever_before,
        ever_before + limits::SET_SIZE,
        before,
    );
    narrow(
        observed,
        always_after,
        always_after + limits::SET_SIZE,
        after,
    );
    widen(observed, ever_after, ever_after + limits::SET_SIZE, after);
    widen_by_change(observed, added, before, after);
    widen_by_change(observed, deleted, after, before);
}

// The offset of the first step that row 11 names: `named` of the steps before, and the step at `at` if it is `unbound`. No Option: the definition, which
// callers' contracts cite, has 0 for none.
fn first_named(named: usize, unbound: bool, at: usize) -> usize
    ensures { result ≡ first_named named unbound at }
{
    if named != 0 {
        return named;
    }
    if unbound {
        return at;
    }
    0
}

// What is noted of a step whose list is good: where the list ends, the offset of the first step that row 11 names (`first_named`, 0 for none), and in a
// short book how many facts hold after it.
#[derive(Clone, Copy)]
pub struct Noted {
    pub next: usize,
    pub named: usize,
    pub count: usize,
}

// What is observed of a full book after the step at `at`, before which the state at `pre` stands, whose facts suit by the record's table; the table `t`
// is lent for the step (`stepmasks`).
pub fn observe(
    s: &[u8],
    table: &[u32; 512],
    pre: usize,
    at: usize,
    t: &mut [u8],
    observed: &mut [u8],
    named: usize,
) -> Result<Noted, Refusal>
    requires masks { (pre ≤ max_length) × (at ≤ max_length) × (length observed.old ≡ observed_size) × (t.old ≡ no_digits) }
    requires bound { (1 ≤ (filed_step_at s.now at).action.0) × ((filed_step_at s.now at).action.0 ≤ max_moves) × Suited table.now (list_at s.now pre) }
    requires lists_within { (list_end s.now pre ≤ length s.now) × (list_end s.now (at + step_size) ≤ length s.now) }
    ensures list_looked { ListLooked s.now table.now (at + step_size) (answer_by (λ m. m.next) result) }
    ensures good { IfOk result (λ m. (m.count ≡ 0) × (t.new ≡ no_digits) × IsObserved (observed_step full s.now (list_at s.now pre) at observed.old named) observed.new m.named) }
{
    let step = filed::read_step(s, at);
    let post = at + limits::STEP_SIZE;
    let bound = observed::set_at(step.action, SeenSet::Bound);
    let end = bound + limits::SET_SIZE;
    let mut before = mask::empty();
    let mut after = mask::empty();
    let sight = stepmasks::mark_step(
        s,
        table,
        t,
        &observed[bound..end],
        step.binding,
        pre,
        post,
        &mut before,
        &mut after,
    )?;
    note(observed, step.action, before, after);
    Ok(Noted {
        next: sight.next,
        named: first_named(named, sight.unbound, at),
        count: 0,
    })
}

// What is observed of a short book after the step at `at`. `state` is the mask of the state before the step, in which `held` facts hold, and the
// facts of the step's list turn in it. The bound facts before the step are read from `state`; those after it are these with the listed ones turned.
pub fn observe_turned(
    s: &[u8],
    h: Sections,
    table: &[u32; 512],
    at: usize,
    t: &mut [u8],
    state: &mut [u8],
    held: usize,
    observed: &mut [u8],
    named: usize,
) -> Result<Noted, Refusal>
    requires { StepTurnable h s.now at state.old observed.old × (t.old ≡ no_digits) × (held ≡ cardinality state.old) × RightForFew table.now }
    ensures list_looked { ListLooked s.now table.now (at + step_size) (answer_by (λ m. m.next) result) }
    ensures good { IfOk result (λ m. (t.new ≡ no_digits) × TurnObserved (schema h s.now) (filed_step_at s.now at) (list_at s.now (at + step_size)) at observed.old named observed.new m.named state.old state.new × (m.count ≡ cardinality state.new)) }
{
    let step = filed::read_step(s, at);
    let list = at + limits::STEP_SIZE;
    let bound = observed::set_at(step.action, SeenSet::Bound);
    let end = bound + limits::SET_SIZE;
    let mut before = mask::empty();
    grounding::mark_held(
        s,
        h,
        step.binding,
        &observed[bound..end],
        state,
        &mut before,
    );
    let mut after = before;
    let turned = stepmasks::mark_turned(
        s,
        table,
        t,
        &observed[bound..end],
        step.binding,
        list,
        state,
        held,
        &mut after,
    )?;
    note(observed, step.action, before, after);
    Ok(Noted {
        next: turned.next,
        named: first_named(named, turned.unbound, at),
        count: turned.count,
    })
}

// ---- before any record

// The sets of a move: no step has been seen that lacks a bound fact, so the two sets of what held at every step begin with all bound facts.
fn first_sets(observed: &mut [u8], a: Move, atoms: [u8; 32])
    requires { (1 ≤ a.0) × (a.0 ≤ max_moves) × (length observed.old ≡ observed_size) }
    ensures { observed.new ≡ first_sets a.0 atoms observed.old }
{
    let before = observed::set_at(a, SeenSet::AlwaysBefore);
    let after = observed::set_at(a, SeenSet::AlwaysAfter);
    let bound = observed::set_at(a, SeenSet::Bound);
    widen(observed, before, before + limits::SET_SIZE, atoms);
    widen(observed, after, after + limits::SET_SIZE, atoms);
    widen(observed, bound, bound + limits::SET_SIZE, atoms);
}

// The bound facts of all moves are made here, once for a book.
pub fn nothing_seen(book: &[u8], h: Sections, observed: &mut [u8])
    requires { (observed.old ≡ empty observed_size) × (h.moves.count ≤ max_moves) }
    ensures { observed.new ≡ (nothing_seen (schema h book.now)).masks }
{
    for i in 0..h.moves.count as u8 {
        let a = Move(i + 1);
        first_sets(observed, a, atoms::atom_set(book, h, a));
    }
}
