// From a fact to the bound fact (lifted atom) that it is under a step's binding, by a table of what each object adds to its number; and sets of bound
// facts marked, or turned, at it.
// Uses terms for facts and bindings, mask for the sets, limits; the contracts cite observed, and specs/Pairs.antt for the parts.
#![tactic(auto)]

ghost use Rattle.std.specs.Prelude.{◌≡◌};
ghost use Rattle.lifting.specs.Pairs.{no_digits, Inverts, places_of, lifted, marked_as, turned_as};

use terms::{Binding, Fact};

// ---- the table

// What the table has for an object of no parameter. A relation has 16 bound facts, one for each pair of parameters, numbered from 0 by the sum of what
// the table has for the two objects; a sum with this value is 16 or more, so it is no bound fact's. So the two are tested by one comparison.
const NO_DIGIT: u8 = 16;

// A table with no parameter's object in it. One serves many steps: each puts its objects in and takes them out.
#[tactic(auto, unfolding(crate::specs::Pairs::no_digits))]
pub fn no_digits() -> [u8; 256]
    ensures { result ≡ no_digits }
{
    [NO_DIGIT; 256]
}

// What each object adds to a bound fact's number in the second place, by the object's number; an unused place, object 0, adds nothing. A parameter of a
// lower number is put in later, and so counts.
pub fn invert(t: &mut [u8], b: Binding)
    requires { t.old ≡ no_digits }
    ensures { Inverts b t.new }
{
    for i in (0..4).rev() {
        t[b.objects[i].0 as usize] = i as u8;
    }
    t[0] = 0;
}

// The table without the objects that `invert` put in.
pub fn restore(t: &mut [u8], b: Binding)
    requires { Inverts b t.old }
    ensures { t.new ≡ no_digits }
{
    for object in b.objects {
        t[object.0 as usize] = NO_DIGIT;
    }
    t[0] = NO_DIGIT;
}

// ---- the bound facts of a step

// What a fact is looked up by: the table of a step's binding, the set of its move's bound facts, and the binding itself.
#[derive(Clone, Copy)]
pub struct Lifting<'a> {
    pub table: &'a [u8],
    pub atoms: &'a [u8],
    pub binding: Binding,
    pub ghost inverts: { Inverts binding table.now },
}

impl Lifting<'_> {
    // What both places add, 16 or more where an object is no parameter's.
    fn places(self, f: Fact) -> usize
        ensures { result ≡ places_of self.entry.binding f }
    {
        4 * self.table[f.first.0 as usize] as usize + self.table[f.second.0 as usize] as usize
    }

    // The number of the bound fact that a fact is, none where it is no bound fact of the step.
    pub fn atom(self, f: Fact) -> Option<usize>
        ensures { result ≡ lifted self.entry.atoms.now self.entry.binding f }
    {
        let x = self.places(f);
        if limits::ATOMS_PER_RELATION <= x {
            return None;
        }
        let n = limits::ATOMS_PER_RELATION * terms::index(f.relation.0) + x;
        if mask::test_bit(self.atoms, n) {
            return Some(n);
        }
        None
    }
}

// Puts a bound fact into a set; nothing where there is none.
pub fn mark(m: &mut [u8], atom: Option<usize>)
    ensures { m.new ≡ marked_as m.old atom }
{
    if let Some(n) = atom {
        mask::set_bit(m, n);
    }
}

// Turns a bound fact in a set: it is put in where it was not in the set, and taken out where it was.
pub fn turn_mark(after: &mut [u8], atom: Option<usize>)
    ensures { after.new ≡ turned_as after.old atom }
{
    if let Some(n) = atom {
        mask::flip_bit(after, n);
    }
}
