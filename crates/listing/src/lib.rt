// What the program `rules` prints of a book: the first line and, by move and then number, the line of every bound fact; or the refused line. The
// whole is proved to be jobs' rules_printed.
// Uses learner for the sheet, atoms for the bound facts of a move, mask for a set, lines for the text, answer, terms and limits.
#![tactic(auto)]

ghost use Rattle.std.specs.Prelude.{◌≡◌, ◌++◌, ◌+◌, ◌*◌, ◌≤◌, ◌<◌, [], length};
ghost use Rattle.format.specs.Form.{full};
ghost use Rattle.answer.specs.Answer.{Good};
ghost use Rattle.limits.specs.Limits.{max_atoms, atoms_per_relation};
ghost use Rattle.terms.specs.Schema.{schema};
ghost use Rattle.atoms.specs.Atoms.{atom_set};
ghost use Rattle.jobs.specs.Planning.{schema_of};
ghost use Rattle.jobs.specs.Learn.{rules_from};
ghost use Rattle.jobs.specs.Listing.{line_if_atom, atom_lines, move_lines, rules_lines, rules_printed};
ghost use Rattle.listing.specs.SheetOf.{SheetOf};

use lines::Text;
use terms::{Move, Sections};

// What a line may take while it is put, the first line being one.
const LINE_ROOM: usize = 128;

// The most that a bound fact's line comes to, the lines of a move, and those of all moves.
const LINE_SIZE: usize = 20;

const MOVE_SIZE: usize = limits::MAX_ATOMS * LINE_SIZE;

const ALL_SIZE: usize = limits::MAX_MOVES as usize * MOVE_SIZE;

// The bytes that any listing fits in: the first line, the moves' lines, and room to put a line.
pub const ROOM: usize = LINE_ROOM + ALL_SIZE + LINE_ROOM;

// A book that is not refused, with its header and its rule sheet.
#[derive(Drop)]
struct Learned<'a> {
    book: &'a [u8],
    h: Sections,
    sheet: &'a [u8],
    ghost is: { SheetOf book.now h sheet.now },
}

impl Learned<'_> {
    // The line of a number, none where it is not in the set of the move's bound facts.
    fn put_line_if_atom(&self, atoms: &[u8], m: Move, n: usize, text: &mut Text<ROOM>)
        requires { (1 ≤ m.0) × (m.0 ≤ self.now.h.moves.count) × (n < max_atoms) × (length text.old + LINE_ROOM ≤ ROOM) × (atoms.now ≡ atom_set (schema self.now.h self.now.book.now) m.0) }
        ensures upper_bound { length text.new ≤ length text.old + LINE_SIZE }
        ensures text { text.new ≡ text.old ++ line_if_atom (schema_of self.now.book.now) (rules_from full self.now.book.now) m.0 n }
    {
        if mask::test_bit(atoms, n) {
            lines::atom_line(self.book, self.h, self.sheet, m, n, text);
        }
    }

    fn put_atom_lines(&self, m: Move, text: &mut Text<ROOM>)
        requires { (1 ≤ m.0) × (m.0 ≤ self.now.h.moves.count) × (length text.old + MOVE_SIZE + LINE_ROOM ≤ ROOM) }
        ensures upper_bound { length text.new ≤ length text.old + MOVE_SIZE }
        ensures text { text.new ≡ text.old ++ atom_lines (schema_of self.now.book.now) (rules_from full self.now.book.now) m.0 (atoms_per_relation * self.now.h.relations.count) 0 }
    {
        let end = limits::ATOMS_PER_RELATION * self.h.relations.count as usize;
        let atoms = atoms::atom_set(self.book, self.h, m);
        for n in 0..end {
            self.put_line_if_atom(&atoms, m, n, text);
        }
    }

    fn put_move_lines(&self, text: &mut Text<ROOM>)
        requires { length text.old + ALL_SIZE + LINE_ROOM ≤ ROOM }
        ensures { text.new ≡ text.old ++ move_lines (schema_of self.now.book.now) (rules_from full self.now.book.now) self.now.h.moves.count 1 }
    {
        for i in 0..self.h.moves.count {
            self.put_atom_lines(Move((i + 1) as u8), text);
        }
    }

    fn put_lines(&self, steps: usize, text: &mut Text<ROOM>)
        requires { text.old ≡ [] }
        ensures { text.new ≡ rules_lines self.now.book.now (Good steps) }
    {
        lines::counts_line(
            self.h.moves.count as usize,
            self.h.records.count as usize,
            steps,
            text,
        );
        self.put_move_lines(text);
    }
}

// Puts the listing in place of the text. The text is lent, since one of its size would be copied where it is returned.
pub fn rules_listing(book: &[u8], text: &mut Text<ROOM>)
    ensures { text.new ≡ rules_printed book.now }
{
    let h = Sections::read(book);
    let mut memory = [0; limits::SHEET_MAX];
    // More than 32 moves are refused, whatever sheet is lent.
    let size = limits::RULE_SIZE * h.moves.count.min(limits::MAX_MOVES) as usize;
    let sheet = &mut memory[..size];
    text.clear();
    match learner::learn(book, false, sheet) {
        Ok(steps) => {
            let learned = Learned { book, h, sheet };
            learned.put_lines(steps, text);
        }
        Err(refusal) => lines::refused_line(refusal.reason.number(), refusal.place, text),
    }
}
