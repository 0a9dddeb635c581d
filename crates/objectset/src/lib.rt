// Sets of objects, each one number whose bit x stands for object x, and bit 0 for an unused place; and tables of such sets. The definitions
// use the bits of mask.
#![tactic(auto)]

ghost use Rattle.std.specs.Prelude.{◌≡◌, ◌<◌};
ghost use Rattle.std.specs.List.{list_all};
ghost use Rattle.objectset.specs.Sets.{is_in, entry, put, stored};

// A question: whether the object is in the set.
#[derive(Clone, Copy)]
pub struct Asked {
    pub set: u32,
    pub object: u8,
}

// Whether each object is in its set. Their bits are tested as one, which takes a fifth off a loop over facts.
pub fn all_in<const N: usize>(asked: [Asked; N]) -> bool
    ensures { result ≡ list_all is_in asked.entry }
{
    let mut known = true;
    let mut bits = u32::MAX;
    for a in asked {
        known &= a.object < 32;
        bits &= a.set >> (a.object % 32);
    }
    known & (bits % 2 == 1)
}

#[tactic(auto, unfolding(crate::specs::Sets::entry))]
pub fn entry(t: &[u32], i: usize) -> u32
    ensures { result ≡ entry t.now i }
{
    t.get(i).copied().unwrap_or(0)
}

#[tactic(auto, unfolding(crate::specs::Sets::put, crate::specs::Sets::entry))]
pub fn put(t: &mut [u32], i: usize, x: u8)
    requires { x < 32 }
    ensures { t.new ≡ put t.old i x }
{
    if i < t.len() {
        t[i] |= 1u32 << x;
    }
}

#[tactic(auto, unfolding(crate::specs::Sets::stored))]
pub fn store(t: &mut [u32], i: usize, set: u32)
    ensures { t.new ≡ stored t.old i set }
{
    if i < t.len() {
        t[i] = set;
    }
}
