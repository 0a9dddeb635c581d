// Learning, checking, adding and converting as definitions: what each answers and which bytes it leaves, and what the judge says. No code but
// which set of a move is which.
#![tactic(auto)]

ghost use Rattle.std.specs.Prelude.{◌≡◌, ◌<◌};
ghost use Rattle.jobs.specs.RuleSets.{place_of};

// The four sets of a move on a rule sheet, in their order, as specs/SheetBits.antt has them: needed to hold, needed not to hold, added, removed.
#[derive(Clone, Copy, Debug, PartialEq, Eq)]
pub enum RuleSet {
    PrePos,
    PreNeg,
    Add,
    Delete,
}

impl RuleSet {
    // Which of the four it is, from 0.
    pub fn place(self) -> usize
        ensures { (result ≡ place_of self) × (result < 4) }
    {
        self as usize
    }
}
