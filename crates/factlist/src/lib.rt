// The facts of a list one after the other, where they are known to lie within the bytes: a cursor that asks nothing of them. One that looks them
// over is states' `FactCursor`.
// Uses input, limits, terms; the contracts cite the definitions of format, and specs/Rest.antt for what is yet to come.
#![tactic(auto)]

ghost use Rattle.std.specs.Prelude.{◌≤◌, ◌<◌, ◌≡◌, length};
ghost use Rattle.limits.specs.Limits.{near_ceiling, far_ceiling};
ghost use Rattle.format.specs.Lists.{list_at, list_end};
ghost use Rattle.factlist.specs.Rest.{rest, next, FactsWithin, Comes};

use terms::Fact;

// The facts of a list that are yet to come: how many, from which offset.
#[derive(Clone, Copy)]
pub struct ListCursor {
    pub at: usize,
    pub left: u16,
}

impl ListCursor {
    pub fn of_list(s: &[u8], at: usize) -> ListCursor
        requires { (at ≤ near_ceiling) × (list_end s.now at ≤ length s.now) }
        ensures { (rest s.now result ≡ list_at s.now at) × FactsWithin s.now result }
    {
        ListCursor {
            at: at + limits::COUNT_SIZE,
            left: input::two_at(s, at),
        }
    }

    pub fn fact(self, s: &[u8]) -> Fact
        requires { (0 < self.left) × FactsWithin s.now self }
        ensures { Comes s.now self result }
    {
        Fact::read(s, self.at)
    }

    // Past the next fact.
    #[tactic(auto, unfolding(crate::specs::Rest::next))]
    pub fn on(self) -> ListCursor
        requires { (0 < self.left) × (self.at ≤ far_ceiling) }
        ensures { result ≡ next self }
    {
        ListCursor {
            at: self.at + limits::FACT_SIZE,
            left: self.left - 1,
        }
    }
}
