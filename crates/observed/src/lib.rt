// What the learner has observed after a record, as definitions: the masks of each move and the first step that row 11 names. The
// code is the names of the sets, where each stands, and a set by value. Uses mask, terms and limits.
#![tactic(auto)]

ghost use Rattle.std.specs.Prelude.{◌≡◌, ◌+◌, ◌≤◌, ◌<◌};
ghost use Rattle.limits.specs.Limits.{max_moves, set_size, observed_sets, observed_size};
ghost use Rattle.mask.specs.Sets.{intersection, difference};
ghost use Rattle.observed.specs.SeenSets.{place_of};
ghost use Rattle.observed.specs.Observed.{set_at, observed_set, MoveObserved};

use terms::Move;

// The seven sets of a move, in their order, as specs/Observed.antt has them: what held before every step of the move, and before some;
// what held after every step, and after some; what some step added, and what some step removed; and all bound facts of the move.
#[derive(Clone, Copy, Debug, PartialEq, Eq)]
pub enum SeenSet {
    AlwaysBefore,
    EverBefore,
    AlwaysAfter,
    EverAfter,
    Added,
    Deleted,
    Bound,
}

impl SeenSet {
    // Which of the seven it is, from 0.
    pub fn place(self) -> usize
        ensures { (result ≡ place_of self) × (result < observed_sets) }
    {
        self as usize
    }
}

// Where a set of a move stands.
#[tactic(auto, unfolding(crate::specs::Observed::set_at))]
pub fn set_at(m: Move, k: SeenSet) -> usize
    requires { (1 ≤ m.0) × (m.0 ≤ max_moves) }
    ensures { (result ≡ set_at m.0 (place_of k)) × (result + set_size ≤ observed_size) }
{
    limits::OBSERVED_PER_MOVE * (m.0 as usize - 1) + limits::SET_SIZE * k.place()
}

// ---- a set by value

pub fn observed_set(observed: &[u8], m: Move, k: SeenSet) -> [u8; 32]
    requires { MoveObserved observed.now m.0 }
    ensures { result ≡ observed_set observed.now m.0 (place_of k) }
{
    let at = set_at(m, k);
    let mut set = mask::empty();
    set.copy_from_slice(&observed[at..at + limits::SET_SIZE]);
    set
}

// What of a set is in a set of a move, and what is not.
pub fn within_observed(set: [u8; 32], observed: &[u8], m: Move, k: SeenSet) -> [u8; 32]
    requires { MoveObserved observed.now m.0 }
    ensures { result ≡ intersection set (observed_set observed.now m.0 (place_of k)) }
{
    mask::intersection(set, observed_set(observed, m, k))
}

pub fn outside_observed(set: [u8; 32], observed: &[u8], m: Move, k: SeenSet) -> [u8; 32]
    requires { MoveObserved observed.now m.0 }
    ensures { result ≡ difference set (observed_set observed.now m.0 (place_of k)) }
{
    mask::union_difference(mask::empty(), set, observed_set(observed, m, k))
}
