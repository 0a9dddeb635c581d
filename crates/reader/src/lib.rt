// A book as the records' walk holds it: its bytes, and the offset of the record that comes next.
// Uses answer, limits, terms, records, and the definitions of format. The methods are thin; the work is `records::record_at`'s. Looking over calls
// `record_from`; the learner's walk makes a `Reader`, and has a thin function of its own over it.
#![tactic(auto)]

ghost use Rattle.std.specs.Prelude.{◌≡◌, ◌≤◌, length};
ghost use Rattle.answer.specs.Refusal.{answer_of};
ghost use Rattle.limits.specs.Limits.{max_length, max_relations};
ghost use Rattle.format.specs.Records.{record_at};

use answer::Refusal;
use terms::Sections;

#[derive(Clone, Copy)]
pub struct Reader<'a> {
    pub src: &'a [u8],
    pub at: usize,
}

impl<'a> Reader<'a> {
    // A book, at its first byte.
    pub fn new(src: &'a [u8]) -> Reader<'a>
        ensures { (result.src ≡ src.entry) × (result.at ≡ 0) }
    {
        Reader { src, at: 0 }
    }

    // The same book, at an offset.
    pub fn moved(self, at: usize) -> Reader<'a>
        ensures { (result.src ≡ self.entry.src) × (result.at ≡ at) }
    {
        Reader { src: self.src, at }
    }

    // The record at which the reader stands: where the next one starts.
    pub fn read(self, short: bool, h: Sections) -> Result<usize, Refusal>
        requires { (h.relations.count ≤ max_relations) × (length self.src.now ≤ max_length) × (self.at ≤ max_length) }
        ensures { answer_of result ≡ record_at short h self.entry.src.now self.entry.at }
    {
        records::record_at(self.src, short, h, self.at)
    }
}

// The record at an offset of a book, of either form and with the header that was read of it, as `records::record_at`.
pub fn record_from(s: &[u8], at: usize, short: bool, h: Sections) -> Result<usize, Refusal>
    requires { (h.relations.count ≤ max_relations) × (length s.now ≤ max_length) × (at ≤ max_length) }
    ensures { answer_of result ≡ record_at short h s.now at }
{
    Reader::new(s).moved(at).read(short, h)
}
