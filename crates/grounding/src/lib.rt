// The bound facts (lifted atoms) of a move in a state of facts as a mask of 512 bytes: where a relation's stand for the objects of a step, and which of
// a set hold, sixteen of a relation at once.
// Uses limits, terms, factgroups, the end of the bound facts from atoms, and the definitions of mask; each contract names its definition.
#![tactic(auto)]

ghost use Rattle.std.specs.Prelude.{◌≡◌, false, ◌&&◌, ℕ, ◌≤◌, length};
ghost use Rattle.limits.specs.Limits.{set_size, state_size, atoms_per_relation};
ghost use Rattle.mask.specs.Bits.{test_bit};
ghost use Rattle.mask.specs.Sets.{number, empty};
ghost use Rattle.terms.specs.Schema.{schema};
ghost use Rattle.terms.specs.Steps.{ground};
ghost use Rattle.atoms.specs.Atoms.{atoms_end};
ghost use Rattle.factgroups.specs.Groups.{StartsRelation, Indices};
ghost use Rattle.grounding.specs.Grounding.{Bounded, indices, Placed, ForBindings, held_atoms};

use factgroups::Placement;
use terms::{Binding, Param, Sections};

// ---- objects

// What the object of each parameter adds in a used place: its group in the first, its column in the second.
pub fn indices(b: Binding) -> [usize; 4]
    requires { Bounded b }
    ensures { (result ≡ indices b) × Indices result }
{
    b.objects.map(|x| terms::index(x.0))
}

// Where a relation's bound facts stand in a state for these objects, n being the first of them.
pub fn placement(book: &[u8], h: Sections, xs: [usize; 4], n: usize) -> Placement
    requires { Indices xs × StartsRelation n }
    ensures { Placed (schema h book.now) xs n result }
{
    factgroups::placement_of(h.places(book, terms::atom_relation(n)), xs, n)
}

// ---- the bound facts that hold

// Which of a relation's bound facts hold in a state for these objects, n being the first of them.
fn held_word(book: &[u8], h: Sections, xs: [usize; 4], state: &[u8], n: usize) -> u16
    requires { Indices xs × (length state.now ≡ state_size) × StartsRelation n }
    ensures { ForBindings xs (λ b. result ≡ number (λ j. test_bit state.now (ground (schema h book.now) b j)) n atoms_per_relation) }
{
    let places = h.places(book, terms::atom_relation(n));
    let p = factgroups::placement_of(places, xs, n);
    if 1 < places {
        return factgroups::values_at(p, xs, state);
    }
    factgroups::values_alone(p, state)
}

// Those of them that are asked for. Where none is, no group is read.
fn asked_word(book: &[u8], h: Sections, xs: [usize; 4], atoms: &[u8], state: &[u8], n: usize) -> u16
    requires { Indices xs × (length atoms.now ≡ set_size) × (length state.now ≡ state_size) × StartsRelation n }
    ensures { ForBindings xs (λ b. result ≡ number (λ j. test_bit atoms.now j && test_bit state.now (ground (schema h book.now) b j)) n atoms_per_relation) }
{
    let asked = factgroups::word_at(atoms, n / 8);
    if asked == 0 {
        return 0;
    }
    asked & held_word(book, h, xs, state, n)
}

// Puts into an empty set which bound facts of a set hold in a state for a step's objects, relation by relation. The set is lent: one that is returned is
// copied at once, and the copy waits for the words just stored.
pub fn mark_held(
    book: &[u8],
    h: Sections,
    b: Binding,
    atoms: &[u8],
    state: &[u8],
    set: &mut [u8; 32],
)
    requires { Bounded b × (length atoms.now ≡ set_size) × (length state.now ≡ state_size) × (set.old ≡ empty set_size)
        × ((n : ℕ) → atoms_end h.relations.count ≤ n → test_bit atoms.now n ≡ false) }
    ensures { set.new ≡ held_atoms (schema h book.now) b atoms.now state.now }
{
    let xs = indices(b);
    for r in 0..atoms::atoms_end(h.relations.count) / limits::ATOMS_PER_RELATION {
        let n = limits::ATOMS_PER_RELATION * r;
        let bits = asked_word(book, h, xs, atoms, state, n);
        atoms::store_word(set, n, bits as u32);
    }
}
