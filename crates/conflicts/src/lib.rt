// Rows 11 and 12 from what the learner has observed: the answer for a changed fact that is no bound fact of its step, and the first move with a conflict.
// And row 28 of one step: whether all preconditions of its move that are observed are met.
// Uses observed for the sets that are observed, mask for sets, answer; each contract names its definition.
#![tactic(auto)]

ghost use Rattle.std.specs.Prelude.{◌≡◌, not, ◌≤◌, length};
ghost use Rattle.answer.specs.Refusal.{row_of};
ghost use Rattle.limits.specs.Limits.{observed_size, max_moves};
ghost use Rattle.observed.specs.Rules.{unbound_answer, conflict_observed, conflict_among, in_use, conflict_set, unmet_set};
ghost use Rattle.observed.specs.Observed.{MoveObserved};

use answer::{Reason, Refusal};
use observed::SeenSet;
use terms::Move;

// Row 11, `named` being the offset of the first step that it names, 0 where it names none, as in what is observed.
pub fn unbound_answer(named: usize) -> Result<(), Refusal>
    ensures { row_of result ≡ unbound_answer named }
{
    if named == 0 {
        return Ok(());
    }
    Err(Reason::Unbound.at(named))
}

// Whether something is in the set.
fn in_use(set: &[u8]) -> bool
    ensures { result ≡ in_use set.now }
{
    set.iter().any(|x| *x != 0)
}

// What was added and did not hold after every step, or was removed and held after some.
#[tactic(auto, unfolding(observed::specs::Rules::conflict_set))]
fn conflict_set(observed: &[u8], m: Move) -> [u8; 32]
    requires { MoveObserved observed.now m.0 }
    ensures { result ≡ conflict_set observed.now m.0 }
{
    let added = observed::observed_set(observed, m, SeenSet::Added);
    let deleted = observed::observed_set(observed, m, SeenSet::Deleted);
    let unkept = observed::outside_observed(added, observed, m, SeenSet::AlwaysAfter);
    let kept = observed::within_observed(deleted, observed, m, SeenSet::EverAfter);
    mask::union(unkept, kept)
}

#[tactic(auto, unfolding(observed::specs::Rules::conflict_observed))]
fn conflicting(observed: &[u8], m: Move) -> bool
    requires { MoveObserved observed.now m.0 }
    ensures { result ≡ conflict_observed observed.now m.0 }
{
    in_use(&conflict_set(observed, m))
}

// Row 12: the first move with a conflict.
pub fn conflict_among(moves: u16, observed: &[u8]) -> Result<(), Refusal>
    requires { (length observed.now ≡ observed_size) × (moves ≤ max_moves) }
    ensures { row_of result ≡ conflict_among observed.now moves }
{
    for i in 0..moves as usize {
        let m = i + 1;
        if conflicting(observed, Move(m as u8)) {
            return Err(Reason::Conflict.at(m));
        }
    }
    Ok(())
}

// The preconditions of a move that are unmet where `held` are its bound facts that hold: needed not to hold and held, or needed to hold and not held.
#[tactic(auto, unfolding(observed::specs::Rules::unmet_set, observed::specs::Rules::rule_set))]
fn unmet_set(observed: &[u8], m: Move, held: [u8; 32]) -> [u8; 32]
    requires { MoveObserved observed.now m.0 }
    ensures { result ≡ unmet_set observed.now m.0 held }
{
    let needed = observed::observed_set(observed, m, SeenSet::AlwaysBefore);
    let bound = observed::observed_set(observed, m, SeenSet::Bound);
    let needed_not = observed::outside_observed(bound, observed, m, SeenSet::EverBefore);
    mask::union_difference(mask::intersection(needed_not, held), needed, held)
}

// Whether all preconditions of a move are met where `held` are its bound facts that hold.
pub fn needs_met(observed: &[u8], m: Move, held: [u8; 32]) -> bool
    requires { MoveObserved observed.now m.0 }
    ensures { result ≡ not (in_use (unmet_set observed.now m.0 held)) }
{
    !in_use(&unmet_set(observed, m, held))
}
