// The bound facts (lifted atoms) of a move, as a set of 32 bytes: sixteen bits a relation, made from the parameters that fill its places.
// Uses tables for the parameters that suit each kind, terms for the kinds in a book, mask and objectset for sets, limits.
#![tactic(auto)]

ghost use Rattle.std.specs.Prelude.{◌≡◌, ◌+◌, ◌≤◌, ◌<◌};
ghost use Rattle.limits.specs.Limits.{max_atoms};
ghost use Rattle.terms.specs.Schema.{schema};
ghost use Rattle.atoms.specs.Atoms.{atom_set, atoms_end, ParamsByKind, ForMoves, fillers, pairs, relation_atoms, stored_word};

use terms::{Move, Objects, Relation, Sections};

// The table by kind of a move's parameters, taken as the objects that they stand for. A bound fact has no parameter over 4, however many a book
// says that a move has.
fn params_by_kind(book: &[u8], h: Sections, m: Move) -> [u32; 256]
    ensures { ParamsByKind (schema h book.now) m result }
{
    let count = h.params(book, m).min(limits::MAX_PARAMS);
    let at = h.move_at(m) + 1;
    tables::kinds_of(book, h, book, Objects { count, at })
}

// The parameters that fill a place, as four bits.
fn fillers(book: &[u8], h: Sections, kinds: &[u32; 256], r: Relation, i: u8) -> u32
    ensures { ForMoves (schema h book.now) kinds.now (λ m. result ≡ fillers (schema h book.now) m r i) × (result < 16) }
{
    if i <= h.places(book, r) {
        return objectset::entry(kinds, h.place_kind(book, r, i) as usize) / 2 % 16;
    }
    1
}

// Four bits at a time: the second set where the bit of the first is 1.
fn pairs(first: u32, second: u32) -> u32
    requires { (first < 16) × (second < 16) }
    ensures { result ≡ pairs first second }
{
    (first % 2 + first / 2 % 2 * 16 + first / 4 % 2 * 256 + first / 8 * 4096) * second
}

// The sixteen bits of a relation.
#[tactic(auto, unfolding(crate::specs::Atoms::ForMoves, crate::specs::Atoms::relation_atoms))]
fn relation_atoms(book: &[u8], h: Sections, kinds: &[u32; 256], r: Relation) -> u32
    ensures { ForMoves (schema h book.now) kinds.now (λ m. result ≡ relation_atoms (schema h book.now) m r) }
{
    pairs(fillers(book, h, kinds, r, 1), fillers(book, h, kinds, r, 2))
}

// Sixteen bits from bound fact n on, the first of a relation.
#[tactic(auto, unfolding(crate::specs::Atoms::stored_word))]
pub fn store_word(set: &mut [u8; 32], n: usize, bits: u32)
    requires { n + 16 ≤ max_atoms }
    ensures { set.new ≡ stored_word set.old n bits }
{
    let k = n / 8;
    let [low, high, _, _] = bits.to_le_bytes();
    set[k] = low;
    set[k + 1] = high;
}

// From here on there are no bound facts.
#[tactic(auto, unfolding(crate::specs::Atoms::atoms_end))]
pub fn atoms_end(relations: u16) -> usize
    ensures { (result ≡ atoms_end relations) × (result ≤ max_atoms) }
{
    limits::ATOMS_PER_RELATION * relations.min(limits::MAX_RELATIONS) as usize
}

pub fn atom_set(book: &[u8], h: Sections, m: Move) -> [u8; 32]
    ensures { result ≡ atom_set (schema h book.now) m.0 }
{
    let mut set = mask::empty();
    if terms::out_of_range(h.moves.count, m.0 as u16) {
        return set;
    }
    let kinds = params_by_kind(book, h, m);
    for i in 0..h.relations.count.min(limits::MAX_RELATIONS) as usize {
        let n = limits::ATOMS_PER_RELATION * i;
        let bits = relation_atoms(book, h, &kinds, terms::atom_relation(n));
        store_word(&mut set, n, bits);
    }
    set
}
