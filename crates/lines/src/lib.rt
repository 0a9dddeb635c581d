// Lines of text, put after what a text has, to be written at once.
// Uses io to spell numbers, terms, mask, limits and jobs to read a book's schema and a rule sheet; the lines are those of jobs' Listing.
#![tactic(auto)]

ghost use Rattle.std.specs.Prelude.{◌≡◌, ◌++◌, ◌+◌, ◌≤◌, ◌<◌, length};
ghost use Rattle.limits.specs.Limits.{max_atoms};
ghost use Rattle.terms.specs.Schema.{schema};
ghost use Rattle.jobs.specs.Listing.{refused_line, counts_line, need_letter, effect_letter, param_shown, atom_front, atom_line};
ghost use Rattle.jobs.specs.RuleSets.{place_of};
ghost use Rattle.jobs.specs.SheetBits.{sheet_bit, rules_on};

mod text;

use jobs::RuleSet;
use terms::{Move, Param, Relation, Sections};
pub use text::Text;

// ---- the refused line, and the first line of a listing

#[tactic(auto, unfolding(jobs::specs::Listing::refused_line))]
pub fn refused_line<const N: usize>(number: usize, place: usize, text: &mut Text<N>)
    requires { length text.old + 128 ≤ N }
    ensures { text.new ≡ text.old ++ refused_line number place }
{
    text.put(b"refused ");
    text.put_decimal(number);
    text.put(b" ");
    text.put_decimal(place);
    text.put(b"\n");
}

#[tactic(auto, unfolding(jobs::specs::Listing::counts_line))]
pub fn counts_line<const N: usize>(moves: usize, records: usize, steps: usize, text: &mut Text<N>)
    requires { length text.old + 128 ≤ N }
    ensures upper_bound { length text.new ≤ length text.old + 128 }
    ensures text { text.new ≡ text.old ++ counts_line moves records steps }
{
    text.put(b"moves ");
    text.put_decimal(moves);
    text.put(b" records ");
    text.put_decimal(records);
    text.put(b" steps ");
    text.put_decimal(steps);
    text.put(b"\n");
}

// ---- the line of a bound fact

// Bound fact n in a set of a move.
#[tactic(auto, unfolding(jobs::specs::SheetBits::sheet_bit))]
fn sheet_bit(sheet: &[u8], set: RuleSet, m: Move, n: usize) -> bool
    requires { (1 ≤ m.0) × (n < max_atoms) }
    ensures { result ≡ sheet_bit sheet.now (place_of set) m.0 n }
{
    mask::test_bit(
        sheet,
        limits::RULE_BITS * (m.0 as usize - 1) + limits::MAX_ATOMS * set.place() + n,
    )
}

// H needed to hold, N not to hold, B both, F neither.
#[tactic(auto, unfolding(jobs::specs::Listing::need_letter))]
fn need_letter(needed: bool, needed_not: bool) -> u8
    ensures { result ≡ need_letter needed needed_not }
{
    match (needed, needed_not) {
        (true, true) => b'B',
        (true, false) => b'H',
        (false, true) => b'N',
        (false, false) => b'F',
    }
}

// A added, R removed, K none.
#[tactic(auto, unfolding(jobs::specs::Listing::effect_letter))]
fn effect_letter(added: bool, removed: bool) -> u8
    ensures { result ≡ effect_letter added removed }
{
    match (added, removed) {
        (true, _) => b'A',
        (false, true) => b'R',
        (false, false) => b'K',
    }
}

// A parameter's number, 0 where the relation has no such place.
#[tactic(auto, unfolding(jobs::specs::Listing::param_shown))]
fn param_shown(book: &[u8], h: Sections, r: Relation, i: u8, p: Param) -> u8
    ensures { result ≡ param_shown (schema h book.now) r i p.0 }
{
    if i <= h.places(book, r) { p.0 } else { 0 }
}

// Move, relation and two parameters.
#[tactic(auto, unfolding(jobs::specs::Listing::atom_front))]
fn atom_front<const N: usize>(book: &[u8], h: Sections, m: Move, n: usize, text: &mut Text<N>)
    requires { (n < max_atoms) × (length text.old + 128 ≤ N) }
    ensures upper_bound { length text.new ≤ length text.old + 16 }
    ensures text { text.new ≡ text.old ++ atom_front (schema h book.now) m.0 n }
{
    let r = terms::atom_relation(n);
    text.put_number(m.0);
    text.put_number(r.0);
    text.put_number(param_shown(book, h, r, 1, terms::atom_first(n)));
    text.put_number(param_shown(book, h, r, 2, terms::atom_second(n)));
}

// The line that a rule sheet gives.
#[tactic(auto, unfolding(jobs::specs::Listing::atom_line, jobs::specs::SheetBits::rules_on))]
pub fn atom_line<const N: usize>(
    book: &[u8],
    h: Sections,
    sheet: &[u8],
    m: Move,
    n: usize,
    text: &mut Text<N>,
)
    requires { (1 ≤ m.0) × (n < max_atoms) × (length text.old + 128 ≤ N) }
    ensures upper_bound { length text.new ≤ length text.old + 20 }
    ensures text { text.new ≡ text.old ++ atom_line (schema h book.now) (rules_on sheet.now) m.0 n }
{
    let need = need_letter(
        sheet_bit(sheet, RuleSet::PrePos, m, n),
        sheet_bit(sheet, RuleSet::PreNeg, m, n),
    );
    let effect = effect_letter(
        sheet_bit(sheet, RuleSet::Add, m, n),
        sheet_bit(sheet, RuleSet::Delete, m, n),
    );
    atom_front(book, h, m, n, text);
    text.put(&[need, b' ', effect, b'\n']);
}
