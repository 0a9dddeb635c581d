// Rows 1 to 5 of the refusal table: the length, the header's counts and offsets, the parents of kinds, the relations and the moves of a book.
// Uses answer, input, limits, terms and the definitions of format; each contract names its definition.
#![tactic(auto)]

ghost use Rattle.std.specs.Prelude.{◌≡◌, ◌+◌, ◌≤◌};
ghost use Rattle.limits.specs.Limits.{header_size, far_ceiling};
ghost use Rattle.answer.specs.Walk.{walk};
ghost use Rattle.answer.specs.Refusal.{answer_of};
ghost use Rattle.format.specs.Header.{length_bad, counts_bad, offsets_bad, parent_bad, kind_bad, relation_bad, move_bad, parent, relation, move, sections};

use answer::{Reason, Refusal};
use terms::Sections;

// Row 1.
fn length_bad(s: &[u8]) -> bool
    ensures { result ≡ length_bad s.now }
{
    let size = s.len();
    (size < limits::HEADER_SIZE) | (limits::MAX_LENGTH < size)
}

// Row 2.
fn counts_bad(h: Sections) -> bool
    ensures { result ≡ counts_bad h }
{
    (limits::MAX_KINDS < h.kinds)
        | (limits::MAX_RELATIONS < h.relations.count)
        | (limits::MAX_MOVES < h.moves.count)
        | (limits::MAX_RECORDS < h.records.count)
}

// Row 3: the relations begin where the header ends, or behind a parent for each kind; the sections touch, and the records begin at or before
// the end, which is the length.
fn offsets_bad(h: Sections, size: usize) -> bool
    ensures { result ≡ offsets_bad h size }
{
    let relations = h.relations.at as usize;
    let moves = h.moves.at as usize;
    let records = h.records.at as usize;
    let end = h.end as usize;
    !((relations == limits::HEADER_SIZE) | (relations == limits::HEADER_SIZE + h.kinds as usize))
        | (moves != relations + limits::RELATION_SIZE * h.relations.count as usize)
        | (records != moves + limits::MOVE_SIZE * h.moves.count as usize)
        | (end != size)
        | (end < records)
}

// Row 21, of the parent at an offset: it is not smaller than its kind.
fn parent_bad(s: &[u8], at: usize) -> bool
    requires { (header_size ≤ at) × (at ≤ far_ceiling) }
    ensures { result ≡ parent_bad s.now at }
{
    at - limits::HEADER_SIZE + 1 <= input::byte_at(s, at) as usize
}

// A kind byte: a kind where it is used, 0 where it is not.
fn kind_bad(s: &[u8], kinds: u16, i: usize, used: bool) -> bool
    ensures { result ≡ kind_bad s.now kinds i used }
{
    let kind = input::byte_at(s, i);
    (used & terms::out_of_range(kinds, kind as u16)) | (!used & (kind != 0))
}

// Row 4, of the relation at an offset.
fn relation_bad(s: &[u8], kinds: u16, at: usize) -> bool
    requires { at ≤ far_ceiling }
    ensures { result ≡ relation_bad s.now kinds at }
{
    let places = input::byte_at(s, at);
    let first = kind_bad(s, kinds, at + 1, 1 <= places);
    let second = kind_bad(s, kinds, at + 2, 2 <= places);
    let last = input::byte_at(s, at + 3);
    (limits::MAX_PLACES < places) | first | second | (last != 0)
}

// Row 5, of the move at an offset.
fn move_bad(s: &[u8], kinds: u16, at: usize) -> bool
    requires { at ≤ far_ceiling }
    ensures { result ≡ move_bad s.now kinds at }
{
    let params = input::byte_at(s, at);
    let first = kind_bad(s, kinds, at + 1, 1 <= params);
    let second = kind_bad(s, kinds, at + 2, 2 <= params);
    let third = kind_bad(s, kinds, at + 3, 3 <= params);
    let fourth = kind_bad(s, kinds, at + 4, 4 <= params);
    let last = input::byte_at(s, at + 5);
    (limits::MAX_PARAMS < params) | first | second | third | fourth | (last != 0)
}

// Row 21 of each parent: where the relations start, or the first one that is wrong.
fn parents(s: &[u8], n: usize, from: usize) -> Result<usize, Refusal>
    requires { (header_size ≤ from) × (from + n ≤ far_ceiling) }
    ensures { answer_of result ≡ walk (parent s.now) n from }
{
    answer::walk_entries(Reason::Parent, 1, n, from, |at| parent_bad(s, at))
}

// Row 4 of each relation: where the moves start, or the first one that is wrong.
fn relations(s: &[u8], kinds: u16, n: u16, from: u16) -> Result<usize, Refusal>
    ensures { answer_of result ≡ walk (relation s.now kinds) n from }
{
    answer::walk_entries(
        Reason::Relation,
        limits::RELATION_SIZE,
        n as usize,
        from as usize,
        |at| relation_bad(s, kinds, at),
    )
}

// Row 5 of each move: where the records start, or the first one that is wrong.
fn moves(s: &[u8], kinds: u16, n: u16, from: u16) -> Result<usize, Refusal>
    ensures { answer_of result ≡ walk (move s.now kinds) n from }
{
    answer::walk_entries(
        Reason::Move,
        limits::MOVE_SIZE,
        n as usize,
        from as usize,
        |at| move_bad(s, kinds, at),
    )
}

// Rows 1 to 5 in order, 21 after 3, of a book with the header `h`: where the records start, or the first refusal met.
pub fn sections(s: &[u8], h: Sections) -> Result<usize, Refusal>
    ensures { answer_of result ≡ sections h s.now }
{
    if length_bad(s) {
        return Err(Reason::BookLength.at(0));
    }
    if counts_bad(h) {
        return Err(Reason::BookCounts.at(0));
    }
    if offsets_bad(h, s.len()) {
        return Err(Reason::BookOffsets.at(0));
    }
    let first = limits::HEADER_SIZE;
    parents(s, h.relations.at as usize - first, first)?;
    relations(s, h.kinds, h.relations.count, h.relations.at)?;
    moves(s, h.kinds, h.moves.count, h.moves.at)
}
