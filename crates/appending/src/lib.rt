// A book that is formed front to back, up to where it would pass the longest book's end.
// Uses answer, limits, output, terms, and the definitions of jobs.
#![tactic(auto)]

ghost use Rattle.std.specs.Prelude.{◌≡◌, [], ◌∷◌, ◌+◌, ◌≤◌, length, take};
ghost use Rattle.answer.specs.declared.Reason.TheVariants.{TooLong};
ghost use Rattle.limits.specs.Limits.{max_length};
ghost use Rattle.output.specs.Written.{written, two_bytes};
ghost use Rattle.jobs.specs.Convert.{facts_bytes};
ghost use Rattle.appending.specs.Appended.{Appended};

use answer::{Reason, Refusal};
use std::marker::Model;
use terms::Fact;

// The error of an append: the book would be longer than the longest, by however much.
#[derive(Clone, Copy, Debug, PartialEq, Eq)]
pub struct PastEnd;

impl From<PastEnd> for Refusal {
    ghost from_gives = { λ _ r. r ≡ record { reason = TooLong; place = 0 } };

    fn from(_e: PastEnd) -> Refusal {
        Reason::TooLong.at(0)
    }
}

// A book as far as it is formed, in memory for the longest one.
#[derive(Drop)]
pub struct Draft {
    bytes: [u8; limits::MAX_LENGTH],
    len: usize,
}

// Clauses see the bytes that are formed.
impl Model for Draft {
    ghost use Rattle.std.specs.Prelude.{ℕ, ◌≤◌, List, take};
    ghost use Rattle.limits.specs.Limits.{max_length};

    ghost Value = { List ℕ };

    ghost view = { λ d. take d.len d.bytes };

    ghost invariant = { λ d. d.len ≤ max_length };
}

impl Draft {
    pub fn new() -> Draft
        ensures { result ≡ [] }
    {
        Draft {
            bytes: [0; limits::MAX_LENGTH],
            len: 0,
        }
    }

    // The book that is formed at the front of memory that the caller has.
    pub fn of(bytes: [u8; limits::MAX_LENGTH], len: usize) -> Draft
        requires { len ≤ max_length }
        ensures { result ≡ take len bytes }
    {
        Draft { bytes, len }
    }

    // Nothing is formed any more.
    pub fn clear(&mut self)
        ensures { self.new ≡ [] }
    {
        self.len = 0;
    }

    pub fn len(&self) -> usize
        ensures { (result ≡ length self.now) × (result ≤ max_length) }
    {
        self.len
    }

    pub fn bytes(&self) -> &[u8]
        ensures { (result.now ≡ self.now) × (length self.now ≤ max_length) }
    {
        &self.bytes[..self.len]
    }

    pub fn append(&mut self, bytes: &[u8]) -> Result<(), PastEnd>
        ensures { Appended bytes.now self.old self.new result }
    {
        if limits::MAX_LENGTH - self.len < bytes.len() {
            return Err(PastEnd);
        }
        output::write_bytes(&mut self.bytes, self.len, bytes);
        self.len += bytes.len();
        Ok(())
    }

    #[inline(always)]
    pub fn append_fact(&mut self, f: Fact) -> Result<(), PastEnd>
        ensures { Appended (facts_bytes (f ∷ [])) self.old self.new result }
    {
        let at = self.len;
        if limits::MAX_LENGTH < at + limits::FACT_SIZE {
            return Err(PastEnd);
        }
        // Three stores: `append` of an array takes longer, here once per fact.
        self.bytes[at] = f.relation.0;
        self.bytes[at + 1] = f.first.0;
        self.bytes[at + 2] = f.second.0;
        self.len = at + limits::FACT_SIZE;
        Ok(())
    }

    // A two-byte number in place of the one at an offset.
    pub fn renew_two(&mut self, at: usize, n: usize)
        requires { at + 2 ≤ length self.old }
        ensures { self.new ≡ written self.old at (two_bytes n) }
    {
        output::write_two(&mut self.bytes, at, n);
    }
}
