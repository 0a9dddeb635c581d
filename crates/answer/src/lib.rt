// What every job answers, and what every step of looking over answers: a number, or a refusal with its reason and place.
// The code uses no other crate; laws in specs/ use truth. The definitions have an answer of their own (specs/Answer.antt), with the paper's number; specs/Refusal.antt
// says which answer a result is.
#![tactic(auto)]

ghost use Rattle.std.specs.Prelude.{◌≡◌, ◌+◌, ◌*◌, ◌<◌, ◌≤◌, ◌^◌, ℕ, Bool};
ghost use Rattle.answer.specs.Answer.{number, place, packed};
ghost use Rattle.answer.specs.Refusal.{number_of, answer_of, positioned_of};
ghost use Rattle.answer.specs.Walk.{walk, entry};
ghost use Rattle.answer.specs.declared.CheckRefusal.TheVariants.{BeforeStarts};

// What a refusal is for: one reason for each number of the paper's refusal table, in the table's order.
#[derive(Clone, Copy, Debug, PartialEq, Eq)]
pub enum Reason {
    // The book: its length, the counts and the offsets of its header.
    BookLength,
    BookCounts,
    BookOffsets,
    // A kind's parent, a relation, a move.
    Parent,
    Relation,
    Move,
    // A record: its bytes (or bytes left behind the last one), one without steps, an object, a fact of a state, a step, an object given twice to a step.
    Record,
    NoSteps,
    Object,
    State,
    Step,
    Repeated,
    // A step that did not go, with another state after it than before it.
    FailedChange,
    // What is learned: a changed fact that is no bound fact, a conflict of a move, a step that did not go though all its preconditions are met.
    Unbound,
    Conflict,
    FailedMet,
    // A converted book that is too long, and lent bytes that are too few.
    TooLong,
    Room,
    // The order: its header, how many starts it has, an object, a fact of a start, a goal entry, a step.
    OrderHeader,
    Starts,
    OrderObject,
    Start,
    GoalEntry,
    PlanStep,
    // The plan: a step that is not applicable, a goal entry that is missed.
    Inapplicable,
    GoalMissed,
}

impl Reason {
    // The number in the table.
    pub fn number(self) -> usize
        ensures { result ≡ number_of self }
    {
        match self {
            Reason::BookLength => 1,
            Reason::BookCounts => 2,
            Reason::BookOffsets => 3,
            Reason::Parent => 21,
            Reason::Relation => 4,
            Reason::Move => 5,
            Reason::Record => 6,
            Reason::NoSteps => 24,
            Reason::Object => 7,
            Reason::State => 8,
            Reason::Step => 9,
            Reason::Repeated => 10,
            Reason::FailedChange => 27,
            Reason::Unbound => 11,
            Reason::Conflict => 12,
            Reason::FailedMet => 28,
            Reason::TooLong => 23,
            Reason::Room => 13,
            Reason::OrderHeader => 14,
            Reason::Starts => 22,
            Reason::OrderObject => 15,
            Reason::Start => 16,
            Reason::GoalEntry => 17,
            Reason::PlanStep => 18,
            Reason::Inapplicable => 19,
            Reason::GoalMissed => 20,
        }
    }

    // The refusal for this reason at a place.
    pub fn at(self, place: usize) -> Refusal
        ensures { result ≡ record { reason = self; place = place } }
    {
        Refusal {
            reason: self,
            place,
        }
    }
}

// The error of every job: what it is for, and the place.
#[derive(Clone, Copy, Debug, PartialEq, Eq)]
pub struct Refusal {
    pub reason: Reason,
    pub place: usize,
}

// The error of a check: a refusal that is about none of the order's starts, or one that is about a start, counted from 1.
#[derive(Clone, Copy, Debug, PartialEq, Eq)]
pub enum CheckRefusal {
    BeforeStarts(Refusal),
    AtStart(usize, Refusal),
}

impl From<Refusal> for CheckRefusal {
    ghost from_gives = { λ r e. e ≡ BeforeStarts r };

    fn from(refusal: Refusal) -> CheckRefusal {
        CheckRefusal::BeforeStarts(refusal)
    }
}

// One number for C: the place in the low 32 bits, the position from bit 32 on, the number of the refusal from bit 48 on.
fn in_bits(number: usize, position: usize, place: usize) -> u64
    requires { (number < 65536) × (position < 65536) × (place < 4294967296) }
    ensures { result ≡ number * 281474976710656 + position * 4294967296 + place }
{
    number as u64 * 281474976710656 + position as u64 * 4294967296 + place as u64
}

// An outcome as one number for C; a success has the number 0.
#[tactic(auto, unfolding(crate::specs::Answer::number, crate::specs::Answer::place, crate::specs::Answer::packed))]
pub fn pack(outcome: Result<usize, Refusal>) -> u64
    requires { (number (answer_of outcome) < 65536) × (place (answer_of outcome) < 4294967296) }
    ensures { result ≡ packed (answer_of outcome) 0 }
{
    match outcome {
        Ok(value) => in_bits(0, 0, value),
        Err(refusal) => in_bits(refusal.reason.number(), 0, refusal.place),
    }
}

// The same of a check: the position is that of the start that a refusal is about, 0 for none.
#[tactic(auto, unfolding(crate::specs::Answer::number, crate::specs::Answer::place, crate::specs::Answer::packed))]
pub fn pack_checked(outcome: Result<usize, CheckRefusal>) -> u64
    requires { (number (positioned_of outcome).answer < 65536) × ((positioned_of outcome).position < 65536) × (place (positioned_of outcome).answer < 4294967296) }
    ensures { result ≡ packed (positioned_of outcome).answer (positioned_of outcome).position }
{
    match outcome {
        Ok(value) => in_bits(0, 0, value),
        Err(CheckRefusal::BeforeStarts(refusal)) => {
            in_bits(refusal.reason.number(), 0, refusal.place)
        }
        Err(CheckRefusal::AtStart(start, refusal)) => {
            in_bits(refusal.reason.number(), start, refusal.place)
        }
    }
}

// A number of entries of one size from an offset: where they end, or the first that is bad.
pub fn walk_entries<F: Fn(usize) -> bool>(
    reason: Reason,
    size: usize,
    n: usize,
    from: usize,
    bad: F,
) -> Result<usize, Refusal>
    requires fits { from + size * n < 2 ^ 64 }
    requires callable { (at : ℕ) → from ≤ at → at + size ≤ from + size * n → F.pre bad at }
    ensures { (test : ℕ → Bool) → ((at : ℕ) (b : Bool) → F.post bad at b → b ≡ test at) → answer_of result ≡ walk (entry test (number_of reason) size) n from }
{
    for i in 0..n {
        let at = from + size * i;
        if bad(at) {
            return Err(reason.at(at));
        }
    }
    Ok(from + size * n)
}
