// Which bound facts (lifted atoms) of a step hold before and after it, and row 11: whether any other fact changed. By the lists of both states, or
// in a short book by the list of the facts that turn. The list after the step is looked over as it is read, row 8.
// Uses lifting for the bound fact that a fact is, factlist for a list's facts, states for a list that is looked over, turning for a state in which facts turn, terms, answer, input,
// limits; the contracts cite observed and format, and specs/Marks.antt for the parts.
#![tactic(auto)]

ghost use Rattle.std.specs.Prelude.{◌+◌, ◌≤◌, ◌<◌, ◌≡◌, IfOk, [], length};
ghost use Rattle.limits.specs.Limits.{fact_size, set_size, state_size, near_ceiling, far_ceiling};
ghost use Rattle.mask.specs.Sets.{empty, cardinality};
ghost use Rattle.terms.specs.Told.{fact_key};
ghost use Rattle.format.specs.Lists.{list_at, list_end};
ghost use Rattle.answer.specs.Refusal.{answer_by};
ghost use Rattle.states.specs.Looked.{ListLooked};
ghost use Rattle.observed.specs.Inverse.{marks, unbound_changed};
ghost use Rattle.lifting.specs.Pairs.{no_digits, marked_as};
ghost use Rattle.factlist.specs.Rest.{rest, next, FactsWithin};
ghost use Rattle.stepmasks.specs.Marks.{plain, RightForFew, Suited, ListAhead, Looks, RestMarked, NextMarked, StepMarked, StepTurned};

use answer::{Reason, Refusal};
use factlist::ListCursor;
use lifting::Lifting;
use states::FactCursor;
use terms::Binding;

// ---- the facts of a state

// Past the next fact of a list, which is marked.
fn pass(c: ListCursor, m: &mut [u8], atom: Option<usize>) -> ListCursor
    requires { (0 < c.left) × (c.at ≤ far_ceiling) }
    ensures { (m.new ≡ marked_as m.old atom) × (result ≡ next c) }
{
    lifting::mark(m, atom);
    c.on()
}

// Marks the facts that are left before the step, and says whether any is no bound fact: row 11, where no facts are left after the step. A cursor counts
// the facts that are left, so its loops, here and below, are no `for`: that would count them a second time.
fn mark_rest(m: &mut [u8], s: &[u8], lift: Lifting, from: ListCursor) -> bool
    requires { FactsWithin s.now from }
    ensures { (m.new ≡ marks lift.entry.atoms.now lift.entry.binding m.old (rest s.now from)) × (result ≡ unbound_changed lift.entry.atoms.now lift.entry.binding [] (rest s.now from)) }
{
    let mut c = from;
    let mut changed = false;
    while 0 < c.left {
        let x = lift.atom(c.fact(s));
        c = pass(c, m, x);
        changed = changed | x.is_none();
    }
    changed
}

// A list that is good, read once: where it ends, and whether a fact that is no bound fact of the step changed.
#[derive(Clone, Copy)]
pub struct Marked {
    pub next: usize,
    pub unbound: bool,
}

// Looks over the facts that are left after the step, marks them, and says whether any is no bound fact: row 11, where none are left before the step.
fn look_rest(
    m: &mut [u8],
    s: &[u8],
    table: &[u32; 512],
    lift: Lifting,
    from: FactCursor,
) -> Result<Marked, Refusal>
    requires { FactsWithin s.now (plain from) × (from.size ≡ fact_size) × (from.key ≡ fact_key from.last) }
    ensures { RestMarked s.now table.now lift.entry.atoms.now lift.entry.binding from m.old m.new result }
{
    let mut c = from;
    let mut changed = false;
    while 0 < c.left {
        if c.bad(s, table) {
            return Err(Reason::State.at(c.at));
        }
        let x = lift.atom(c.fact(s));
        c = c.next(s);
        lifting::mark(m, x);
        changed = changed | x.is_none();
    }
    Ok(Marked {
        next: c.at,
        unbound: changed,
    })
}

// ---- the facts of two states

// The facts to come of a step's two states, those after it yet to be looked over; and whether a fact that is no bound fact was seen to change.
#[derive(Clone, Copy)]
struct Walk {
    pre: ListCursor,
    post: FactCursor,
    changed: bool,
}

// One fact more of a state, or of both. A fact that comes next in both is looked up once, and it suits, since it did before the step. Facts that are
// no bound facts are merged by key: they stand in order, so of two that differ the one with the smaller key is in its list alone, and the other is
// compared with those that follow. Bound facts are passed as they come: they are compared as sets, and to ask for their order costs time.
// The walk goes on in place. Which bound fact a fact is, is asked behind the comparison: asked before it, the answer is held through it, and learning a
// dense book took an eighth more instructions.
fn mark_next(
    before: &mut [u8],
    after: &mut [u8],
    s: &[u8],
    table: &[u32; 512],
    lift: Lifting,
    w: &mut Walk,
) -> Result<(), Refusal>
    requires within { FactsWithin s.now w.old.pre × FactsWithin s.now (plain w.old.post) × (0 < w.old.pre.left) × (0 < w.old.post.left) }
    requires suited { Suited table.now (rest s.now w.old.pre) × (w.old.post.size ≡ fact_size) × (w.old.post.key ≡ fact_key w.old.post.last) }
    ensures next_marked { IfOk result (λ _. NextMarked s.now lift.entry.atoms.now lift.entry.binding w.old before.old after.old w.new before.new after.new) }
    ensures looks { Looks s.now table.now w.old.post result w.new.post }
{
    let p = w.pre;
    let q = w.post;
    let f = p.fact(s);
    let g = q.fact(s);
    if f == g {
        if !g.follows(q.last, q.key) {
            return Err(Reason::State.at(q.at));
        }
        let x = lift.atom(f);
        w.post = q.next(s);
        lifting::mark(after, x);
        w.pre = pass(p, before, x);
        return Ok(());
    }
    let x = lift.atom(f);
    if x.is_some() {
        w.pre = pass(p, before, x);
        return Ok(());
    }
    if q.bad(s, table) {
        return Err(Reason::State.at(q.at));
    }
    let y = lift.atom(g);
    let unbound = y.is_none();
    if unbound & g.follows(f, f.key()) {
        w.pre = pass(p, before, x);
        w.changed = true;
        return Ok(());
    }
    w.post = q.next(s);
    lifting::mark(after, y);
    w.changed |= unbound;
    Ok(())
}

// The facts of the list at an offset, yet to be looked over.
fn listed(s: &[u8], at: usize) -> FactCursor
    requires { (at ≤ near_ceiling) × (list_end s.now at ≤ length s.now) }
    ensures { ListAhead s.now at result }
{
    FactCursor::new(
        limits::FACT_SIZE,
        input::two_at(s, at) as usize,
        at + limits::COUNT_SIZE,
    )
}

// Row 8 of the whole list at `post`, and where it is good row 11 of the step with the binding `b` and its bound facts in the states at `pre` and
// `post`. The facts at `pre` suit. The table `t` is lent for the step.
pub fn mark_step(
    s: &[u8],
    table: &[u32; 512],
    t: &mut [u8],
    atoms: &[u8],
    b: Binding,
    pre: usize,
    post: usize,
    before: &mut [u8],
    after: &mut [u8],
) -> Result<Marked, Refusal>
    requires lists_within { (pre ≤ near_ceiling) × (post ≤ near_ceiling) × (list_end s.now pre ≤ length s.now) × (list_end s.now post ≤ length s.now) }
    requires fresh { (t.old ≡ no_digits) × (before.old ≡ empty set_size) × (after.old ≡ empty set_size) × Suited table.now (list_at s.now pre) }
    ensures list_looked { ListLooked s.now table.now post (answer_by (λ m. m.next) result) }
    ensures good { IfOk result (λ m. (t.new ≡ no_digits) × StepMarked atoms.now b (list_at s.now pre) (list_at s.now post) before.new after.new m.unbound) }
{
    lifting::invert(t, b);
    let lift = Lifting {
        table: &*t,
        atoms,
        binding: b,
    };
    let mut w = Walk {
        pre: ListCursor::of_list(s, pre),
        post: listed(s, post),
        changed: false,
    };
    while (0 < w.pre.left) & (0 < w.post.left) {
        mark_next(before, after, s, table, lift, &mut w)?;
    }
    let only_before = mark_rest(before, s, lift, w.pre);
    let rest = look_rest(after, s, table, lift, w.post)?;
    lifting::restore(t, b);
    Ok(Marked {
        unbound: w.changed | only_before | rest.unbound,
        ..rest
    })
}

// ---- the facts that turn

// A list of facts that turn that is good, read once: where it ends, whether one of them is no bound fact, and how many facts hold after it.
#[derive(Clone, Copy)]
pub struct Turned {
    pub next: usize,
    pub unbound: bool,
    pub count: usize,
}

// Row 8 of the whole list at an offset of a short book, and where it is good row 11 of the step with the binding `b`. The facts of the list turn in
// `state`, in which `held` facts hold; those that are bound facts turn in `after`, too, which has the bound facts before the step. The table `t` is
// lent for the step.
pub fn mark_turned(
    s: &[u8],
    table: &[u32; 512],
    t: &mut [u8],
    atoms: &[u8],
    b: Binding,
    at: usize,
    state: &mut [u8],
    held: usize,
    after: &mut [u8],
) -> Result<Turned, Refusal>
    requires { (at ≤ near_ceiling) × (list_end s.now at ≤ length s.now) × (t.old ≡ no_digits) × (length state.old ≡ state_size) × (held ≡ cardinality state.old) × RightForFew table.now }
    ensures list_looked { ListLooked s.now table.now at (answer_by (λ m. m.next) result) }
    ensures good { IfOk result (λ m. (t.new ≡ no_digits) × StepTurned atoms.now b (list_at s.now at) state.old state.new after.old after.new m.unbound × (m.count ≡ cardinality state.new)) }
{
    lifting::invert(t, b);
    let lift = Lifting {
        table: &*t,
        atoms,
        binding: b,
    };
    let mut c = listed(s, at);
    let mut unbound = false;
    let mut count = held;
    while 0 < c.left {
        if c.bad(s, table) {
            return Err(Reason::State.at(c.at));
        }
        let f = c.fact(s);
        c = c.next(s);
        let x = lift.atom(f);
        count = turning::turn(f, state, count);
        lifting::turn_mark(after, x);
        unbound = unbound | x.is_none();
    }
    lifting::restore(t, b);
    Ok(Turned {
        next: c.at,
        unbound,
        count,
    })
}
