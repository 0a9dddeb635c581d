// Sets of numbers as byte masks: element n is the bit of value 2^(n mod 8) in byte n div 8. Functions on slices of any length, and those that take and
// give arrays. All but `count` are total: bytes past an end read as 0, and a store there changes nothing, as specs/Bits.antt and specs/Sets.antt say.
// Uses no other crate.
#![tactic(auto)]

ghost use Rattle.std.specs.Prelude.{◌≡◌, ◌*◌, ◌^◌, ◌<◌, ◌≤◌, length, get_or};
ghost use Rattle.mask.specs.Bits.{test_bit, set_bit, flip_bit};
ghost use Rattle.mask.specs.Sets.{intersection, union, difference, empty, cardinality};

// The byte at an index, 0 past the end: no caller has an index to show.
fn byte_at(m: &[u8], i: usize) -> u8
    ensures { (result ≡ get_or m.now i 0) × (result < 256) }
{
    m.get(i).copied().unwrap_or(0)
}

pub fn test_bit(m: &[u8], n: usize) -> bool
    ensures { result ≡ test_bit m.now n }
{
    (byte_at(m, n / 8) >> (n % 8)) % 2 == 1
}

pub fn set_bit(m: &mut [u8], n: usize)
    ensures { m.new ≡ set_bit m.old n }
{
    let k = n / 8;
    if k < m.len() {
        m[k] |= 1u8 << (n % 8);
    }
}

// Takes n out where it was in, puts it in where it was not, and says which: whether it was in.
pub fn flip_bit(m: &mut [u8], n: usize) -> bool
    ensures { (result ≡ test_bit m.old n) × (m.new ≡ flip_bit m.old n) }
{
    let k = n / 8;
    if m.len() <= k {
        return false;
    }
    let old = m[k];
    m[k] = old ^ (1u8 << (n % 8));
    (old >> (n % 8)) % 2 == 1
}

pub fn intersect(acc: &mut [u8], other: &[u8])
    ensures { acc.new ≡ intersection acc.old other.now }
{
    for (i, x) in acc.iter_mut().enumerate() {
        *x &= byte_at(other, i);
    }
}

pub fn unite(acc: &mut [u8], other: &[u8])
    ensures { acc.new ≡ union acc.old other.now }
{
    for (i, x) in acc.iter_mut().enumerate() {
        *x |= byte_at(other, i);
    }
}

// Puts in what is in a and not in b.
pub fn unite_difference(acc: &mut [u8], a: &[u8], b: &[u8])
    ensures { acc.new ≡ union acc.old (difference a.now b.now) }
{
    for (i, x) in acc.iter_mut().enumerate() {
        *x |= byte_at(a, i) & !byte_at(b, i);
    }
}

// How many numbers are in the mask. The bound on its length keeps the sum within a usize.
pub fn count(m: &[u8]) -> usize
    requires { length m.now ≤ 2 ^ 60 }
    ensures { (result ≡ cardinality m.now) × (result ≤ 8 * length m.now) }
{
    m.iter().map(|x| x.count_ones() as usize).sum()
}

// ---- by value

#[tactic(auto, unfolding(crate::specs::Sets::empty))]
pub fn empty<const N: usize>() -> [u8; N]
    ensures { result ≡ empty N }
{
    [0u8; N]
}

pub fn intersection<const N: usize>(a: [u8; N], b: [u8; N]) -> [u8; N]
    ensures { result ≡ intersection a.entry b.entry }
{
    let mut t = a;
    intersect(&mut t, &b);
    t
}

pub fn union<const N: usize>(a: [u8; N], b: [u8; N]) -> [u8; N]
    ensures { result ≡ union a.entry b.entry }
{
    let mut t = a;
    unite(&mut t, &b);
    t
}

pub fn union_difference<const N: usize>(m: [u8; N], a: [u8; N], b: [u8; N]) -> [u8; N]
    ensures { result ≡ union m.entry (difference a.entry b.entry) }
{
    let mut t = m;
    unite_difference(&mut t, &a, &b);
    t
}
