// Row 8 of the refusal table, and row 16: a list of facts, in order, by a cursor that carries the fact before. What suits is told by a table of
// the record or order, so that both are looked at by the same functions; goal entries are looked at by the same cursor.
// Uses answer, input, limits, terms, and the definitions of format and tables.
#![tactic(auto)]

ghost use Rattle.std.specs.Prelude.{ℕ, ◌≡◌, ◌+◌, ◌-◌, ◌*◌, ◌≤◌, ◌<◌, length};
ghost use Rattle.answer.specs.declared.Reason.TheVariants.{State};
ghost use Rattle.states.specs.Wrong.{refused_as};
ghost use Rattle.limits.specs.Limits.{max_length, count_size, max_turns, fact_size, near_ceiling};
ghost use Rattle.input.specs.Bytes.{two};
ghost use Rattle.terms.specs.Facts.{no_fact};
ghost use Rattle.terms.specs.Told.{fact_key};
ghost use Rattle.format.specs.Filed.{as_written};
ghost use Rattle.format.specs.States.{count_bad, facts, list, state};
ghost use Rattle.format.specs.Lists.{list_end};
ghost use Rattle.tables.specs.Tables.{ForRightByPlace};
ghost use Rattle.states.specs.Cursor.{ItemWithin, fact_of, misplaced};
ghost use Rattle.states.specs.Looked.{whole_list};

use answer::{Reason, Refusal};
use terms::Fact;

// The error of a list: the offset of its count, or of its first fact that is wrong. Which row of the refusal table it is, the caller says.
#[derive(Clone, Copy, Debug, PartialEq, Eq)]
pub struct WrongFact(pub usize);

// Row 8, where nothing else is said.
impl From<WrongFact> for Refusal {
    ghost from_gives = { λ w r. r ≡ record { reason = State; place = w.0 } };

    fn from(wrong: WrongFact) -> Refusal {
        Reason::State.at(wrong.0)
    }
}

// Items still to be looked at, each with a fact at its end: the offset of the first, how many there are, the fact before them with its key, and the
// size of an item. The items of a state, and of a start of an order, are its facts; a goal entry has a byte before its fact.
#[derive(Clone, Copy)]
pub struct FactCursor {
    pub at: usize,
    pub left: usize,
    pub last: Fact,
    pub key: u32,
    pub size: usize,
}

impl FactCursor {
    pub fn new(size: usize, n: usize, from: usize) -> FactCursor
        ensures { (result.at ≡ from) × (result.left ≡ n) × (result.last ≡ no_fact) × (result.size ≡ size) × (result.key ≡ fact_key result.last) }
    {
        let last = Fact::none();
        FactCursor {
            at: from,
            left: n,
            last,
            key: last.key(),
            size,
        }
    }

    #[tactic(auto, unfolding(crate::specs::Cursor::fact_of))]
    pub fn fact(self, t: &[u8]) -> Fact
        requires { ItemWithin t.now self }
        ensures { result ≡ fact_of t.now self }
    {
        Fact::read(t, self.at + (self.size - limits::FACT_SIZE))
    }

    // The fact at the cursor is wrong, or not after the one before it.
    #[tactic(auto, using(crate::proofs::Cursors::misplaced_by), unfolding(tables::specs::Tables::ForRightByPlace))]
    pub fn bad(self, t: &[u8], table: &[u32; 512]) -> bool
        requires { ItemWithin t.now self }
        ensures { ForRightByPlace table.now (λ sch ob. result ≡ misplaced sch ob t.now self) }
    {
        let f = self.fact(t);
        !f.suits(table) | !f.follows(self.last, self.key)
    }

    pub fn next(self, t: &[u8]) -> FactCursor
        requires { ItemWithin t.now self × (0 < self.left) }
        ensures { (result.at ≡ self.at + self.size) × (result.left ≡ self.left - 1) × (result.last ≡ fact_of t.now self) × (result.size ≡ self.size) × (result.key ≡ fact_key result.last) }
    {
        let f = self.fact(t);
        FactCursor {
            at: self.at + self.size,
            left: self.left - 1,
            last: f,
            key: f.key(),
            size: self.size,
        }
    }
}

// How many of n facts from an offset are not cut: the facts are then read without a test of each.
fn uncut(end: usize, n: usize, from: usize) -> usize
    requires { (from ≤ near_ceiling + count_size) × (n ≤ max_turns) }
    ensures { (result ≤ n) × (fact_size * result ≤ end - from) × (result < n → end < from + fact_size * result + fact_size) }
{
    if from + limits::FACT_SIZE * n <= end {
        return n;
    }
    if end < from {
        return 0;
    }
    (end - from) / limits::FACT_SIZE
}

// A number of facts from an offset.
fn facts(
    t: &[u8],
    table: &[u32; 512],
    end: usize,
    n: usize,
    from: usize,
) -> Result<usize, WrongFact>
    requires { (end ≤ length t.now) × (from ≤ near_ceiling + count_size) × (n ≤ max_turns) }
    ensures { (number : ℕ) → ForRightByPlace table.now (λ sch ob. refused_as number result ≡ facts as_written number sch ob t.now end n no_fact from) }
{
    let whole = uncut(end, n, from);
    let mut c = FactCursor::new(limits::FACT_SIZE, whole, from);
    // The cursor itself counts what is left: a `for` would count it a second time.
    while 0 < c.left {
        if c.bad(t, table) {
            return Err(WrongFact(c.at));
        }
        c = c.next(t);
    }
    if whole < n {
        return Err(WrongFact(c.at));
    }
    Ok(c.at)
}

// A count that is not cut.
#[tactic(auto, unfolding(input::specs::Bytes::two, input::specs::Bytes::byte_at))]
fn count(s: &[u8], at: usize) -> u16
    requires { (at ≤ near_ceiling) × (at + count_size ≤ length s.now) }
    ensures { result ≡ two s.now at }
{
    u16::from_be_bytes([s[at], s[at + 1]])
}

// Where a list ends, whether it is good or not.
#[tactic(auto, unfolding(format::specs::Lists::list_end))]
pub fn list_end(s: &[u8], at: usize) -> usize
    requires { at ≤ max_length }
    ensures { (result ≡ list_end s.now at) × (result ≤ near_ceiling) }
{
    at + limits::COUNT_SIZE + limits::FACT_SIZE * input::two_at(s, at) as usize
}

#[tactic(auto, unfolding(format::specs::States::count_bad, format::specs::States::cut))]
fn count_bad(s: &[u8], most: u16, end: usize, at: usize) -> bool
    requires { (end ≤ length s.now) × (at ≤ near_ceiling) }
    ensures { result ≡ count_bad most s.now end at }
{
    end < at + limits::COUNT_SIZE || most < count(s, at)
}

// Whether a list has no more than so many facts and none of them is cut: they can then be read without a test of each.
#[tactic(auto, using(format::proofs::States::count_within), unfolding(crate::specs::Looked::whole_list, format::specs::Lists::list_end))]
pub fn is_whole(s: &[u8], most: u16, end: usize, at: usize) -> bool
    requires { (end ≤ length s.now) × (at ≤ near_ceiling) }
    ensures { result ≡ whole_list most s.now end at }
{
    !count_bad(s, most, end, at)
        && at + limits::COUNT_SIZE + limits::FACT_SIZE * count(s, at) as usize <= end
}

// A list of facts, at most so many.
#[tactic(auto, using(crate::proofs::Laws::list_refused, crate::proofs::Laws::list_facts, format::proofs::States::count_within), unfolding(tables::specs::Tables::ForRightByPlace))]
pub fn list(
    most: u16,
    t: &[u8],
    table: &[u32; 512],
    end: usize,
    at: usize,
) -> Result<usize, WrongFact>
    requires { (most ≤ max_turns) × (end ≤ length t.now) × (at ≤ near_ceiling) }
    ensures { (number : ℕ) → ForRightByPlace table.now (λ sch ob. refused_as number result ≡ list as_written number most sch ob t.now end at) }
{
    if count_bad(t, most, end, at) {
        return Err(WrongFact(at));
    }
    facts(
        t,
        table,
        end,
        count(t, at) as usize,
        at + limits::COUNT_SIZE,
    )
}

// Row 8 of a record's first state, row 16 of an order's start.
pub fn state(t: &[u8], table: &[u32; 512], end: usize, at: usize) -> Result<usize, WrongFact>
    requires { (end ≤ length t.now) × (at ≤ near_ceiling) }
    ensures { (number : ℕ) → ForRightByPlace table.now (λ sch ob. refused_as number result ≡ state as_written number sch ob t.now end at) }
{
    list(limits::MAX_FACTS, t, table, end, at)
}
