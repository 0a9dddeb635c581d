// A state of facts as a mask of 512 bytes in which the facts of a list turn, and how many facts hold. A list of a short book has only the facts that
// turn, so the state of its record is kept in such a mask from step to step; in a full book nothing is kept.
// Uses limits, input, terms and mask, and the definitions of format; specs/Turning.antt says what is carried.
#![tactic(auto)]

ghost use Rattle.std.specs.Prelude.{◌≡◌, true, ◌<◌, length};
ghost use Rattle.limits.specs.Limits.{max_fact_numbers, state_size};
ghost use Rattle.mask.specs.Bits.{flip_bit};
ghost use Rattle.mask.specs.Sets.{cardinality};
ghost use Rattle.terms.specs.Facts.{fact_number};
ghost use Rattle.format.specs.Lists.{list_at};
ghost use Rattle.turning.specs.Turning.{flipped, Turnable, Carried};

use terms::Fact;

// Turns one fact; says how many hold afterwards, by how many held before.
pub fn turn(f: Fact, state: &mut [u8], count: usize) -> usize
    requires { (length state.old ≡ state_size) × (fact_number f < max_fact_numbers) × (count ≡ cardinality state.old) }
    ensures { (state.new ≡ flip_bit state.old (fact_number f)) × (result ≡ cardinality state.new) }
{
    if mask::flip_bit(state, f.number()) {
        return count - 1;
    }
    count + 1
}

// Turns each fact of the list at an offset.
fn turn_list(s: &[u8], from: usize, state: &mut [u8], held: usize) -> usize
    requires { (length state.old ≡ state_size) × Turnable s.now from × (held ≡ cardinality state.old) }
    ensures { (state.new ≡ flipped (list_at s.now from) state.old) × (result ≡ cardinality state.new) }
{
    let first = from + limits::COUNT_SIZE;
    let mut count = held;
    for i in 0..input::two_at(s, from) as usize {
        count = turn(Fact::read(s, first + limits::FACT_SIZE * i), state, count);
    }
    count
}

// What the list at an offset does to the state that is kept, by the form of the book: in a short one its facts turn in `state`, and the number of
// facts that hold then is returned; in a full one nothing changes, and 0 is returned.
pub fn carry(s: &[u8], short: bool, at: usize, state: &mut [u8], held: usize) -> usize
    requires { (length state.old ≡ state_size) × (short ≡ true → Turnable s.now at × (held ≡ cardinality state.old)) }
    ensures { (length state.new ≡ state_size) × Carried short s.now at state.old state.new result }
{
    if short {
        return turn_list(s, at, state, held);
    }
    0
}
