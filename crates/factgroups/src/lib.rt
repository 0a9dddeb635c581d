// A state of facts as a mask of 512 bytes, taken by groups: the facts of a relation with one first object are sixteen bits, one for each second object.
// A table made once for a step has, for each set of its parameters, the bits of their objects; with it sixteen bound facts of a relation are tested,
// or put into the state, by four groups; without it their values are gathered. Uses limits, and the definitions of mask; each contract names its definition.
#![tactic(auto)]

ghost use Rattle.std.specs.Prelude.{◌≡◌, true, ◌+◌, ◌*◌, ◌^◌, ◌≤◌, ◌<◌, length};
ghost use Rattle.limits.specs.Limits.{max_atoms, max_objects, max_params, state_size, atoms_per_relation};
ghost use Rattle.mask.specs.Bits.{bit_of, test_bit, Bytes};
ghost use Rattle.mask.specs.Sets.{digit, number};
ghost use Rattle.factgroups.specs.Groups.{StartsRelation, Indices, unused, groups_from, placement_of, Within, group_of, facts, column_set, Tables, ForColumns};
ghost use Rattle.factgroups.specs.Groups.{in_columns, Clear, group_unmet, word_unmet, changed, put_at, in_group, in_word};

// ---- words

// The sixteen bits of a mask from the byte at an index on.
pub fn word_at(m: &[u8], at: usize) -> u16
    requires { at + 2 ≤ length m.now }
    ensures { (result ≡ number (test_bit m.now) (8 * at) atoms_per_relation) × Bytes m.now }
{
    u16::from_le_bytes([m[at], m[at + 1]])
}

// ---- groups and columns

// Where a relation's bound facts stand in a state: the groups of the parameters in the first place, and where a table has the columns of those in the
// second.
#[derive(Clone, Copy)]
pub struct Placement {
    pub groups: [usize; 4],
    pub at: usize,
}

// Not by `map`: what it asks of the sum for each number did not prove.
fn groups_from(xs: [usize; 4], n: usize) -> [usize; 4]
    requires { Indices xs × StartsRelation n }
    ensures { result ≡ groups_from n xs }
{
    [n + xs[0], n + xs[1], n + xs[2], n + xs[3]]
}

// The bound facts of a relation with so many places, n being the first of them, by the groups and columns of the parameters. Where the first place is
// unused, all are in the first group.
pub fn placement_of(places: u8, xs: [usize; 4], n: usize) -> Placement
    requires { Indices xs × StartsRelation n }
    ensures { (result ≡ placement_of places xs n) × Within result }
{
    if 1 < places {
        return Placement {
            groups: groups_from(xs, n),
            at: 0,
        };
    }
    if 0 < places {
        return Placement {
            groups: groups_from(xs, n),
            at: 16,
        };
    }
    Placement {
        groups: [n, n, n, n],
        at: 16,
    }
}

// The group of a parameter, counted from 0, in the first place.
fn group(p: Placement, q: usize) -> usize
    requires { Within p × (q < max_params) }
    ensures { (result ≡ group_of p q) × (result < max_atoms) }
{
    p.groups[q]
}

fn column(y: usize) -> u16
    requires { y < max_objects }
    ensures { result ≡ 2 ^ y }
{
    1u16 << y
}

// For each set of parameters, as four bits, their columns as bits of a group; then the same for an unused second place, where all have column 0.
// Each entry is written out, as the union that it is: a loop over sets of four bits says it in no fewer words.
pub fn column_table(ys: [usize; 4]) -> [u16; 32]
    requires { Indices ys }
    ensures { Tables result ys }
{
    let a = column(ys[0]);
    let b = column(ys[1]);
    let c = column(ys[2]);
    let d = column(ys[3]);
    let ab = a | b;
    let cd = c | d;
    let mut t = [1u16; 32];
    t[0] = 0;
    t[1] = a;
    t[2] = b;
    t[3] = ab;
    t[4] = c;
    t[5] = a | c;
    t[6] = b | c;
    t[7] = ab | c;
    t[8] = d;
    t[9] = a | d;
    t[10] = b | d;
    t[11] = ab | d;
    t[12] = cd;
    t[13] = a | cd;
    t[14] = b | cd;
    t[15] = ab | cd;
    t[16] = 0;
    t
}

// The columns of a set of parameters, as four bits, in the second place.
fn columns(t: &[u16; 32], p: Placement, k: u16) -> u16
    requires { Within p × (k < 16) }
    ensures { ForColumns t.now p (λ ys. result ≡ column_set ys k) }
{
    t[p.at + k as usize]
}

// ---- values

// Below, the four groups stand one by one, each with the weight of its four bits in a word: a loop over them would need the shifts in their place.

// The facts of a state in the group of a parameter.
fn group_word(p: Placement, q: usize, state: &[u8]) -> u16
    requires { (length state.now ≡ state_size) × Within p × (q < max_params) }
    ensures { result ≡ number (test_bit state.now) (16 * group_of p q) atoms_per_relation }
{
    word_at(state, 2 * group(p, q))
}

fn bit_at(group: u16, y: usize) -> u16
    requires { y < max_objects }
    ensures { (result ≡ digit (bit_of group y)) × (result < 2) }
{
    (group >> y) % 2
}

// The bits of a group in four columns.
fn in_columns(group: u16, ys: [usize; 4]) -> u16
    requires { Indices ys }
    ensures { (result ≡ in_columns group ys) × (result < 16) }
{
    bit_at(group, ys[0])
        + bit_at(group, ys[1]) * 2
        + bit_at(group, ys[2]) * 4
        + bit_at(group, ys[3]) * 8
}

// Which of a relation's bound facts hold in a state, by the columns of the parameters in the second place: from each of four groups four bits. In most
// groups of a state none of the facts holds.
pub fn values_at(p: Placement, ys: [usize; 4], state: &[u8]) -> u16
    requires { (length state.now ≡ state_size) × Within p × Indices ys }
    ensures { result ≡ number (λ j. test_bit state.now (facts p ys j)) 0 atoms_per_relation }
{
    let a = group_word(p, 0, state);
    let b = group_word(p, 1, state);
    let c = group_word(p, 2, state);
    let d = group_word(p, 3, state);
    if (a | b | c | d) == 0 {
        return 0;
    }
    in_columns(a, ys) + in_columns(b, ys) * 16 + in_columns(c, ys) * 256 + in_columns(d, ys) * 4096
}

// The same where the second place is unused: all have column 0, so the four of a group have one bit.
pub fn values_alone(p: Placement, state: &[u8]) -> u16
    requires { (length state.now ≡ state_size) × Within p }
    ensures { result ≡ number (λ j. test_bit state.now (facts p unused j)) 0 atoms_per_relation }
{
    let a = bit_at(group_word(p, 0, state), 0);
    let b = bit_at(group_word(p, 1, state), 0);
    let c = bit_at(group_word(p, 2, state), 0);
    let d = bit_at(group_word(p, 3, state), 0);
    (a + b * 16 + c * 256 + d * 4096) * 15
}

// ---- needs

// No fact of a relation holds in the groups and columns of the parameters.
fn groups_clear(t: &[u16; 32], p: Placement, state: &[u8; limits::STATE_SIZE]) -> bool
    requires { Within p }
    ensures { ForColumns t.now p (λ ys. result ≡ true → Clear state.now (facts p ys)) }
{
    let held = group_word(p, 0, state)
        | group_word(p, 1, state)
        | group_word(p, 2, state)
        | group_word(p, 3, state);
    (held & columns(t, p, 15)) == 0
}

// A need of a parameter's group is unmet: of the parameters in the second place that are to hold with it, and of those that are not to.
fn group_unmet(
    t: &[u16; 32],
    p: Placement,
    state: &[u8; limits::STATE_SIZE],
    q: usize,
    positive: u16,
    negative: u16,
) -> bool
    requires { Within p × (q < max_params) × (positive < 16) × (negative < 16) }
    ensures { ForColumns t.now p (λ ys. result ≡ group_unmet state.now (group_of p q) (column_set ys positive) (column_set ys negative)) }
{
    let held = group_word(p, q, state);
    let to_hold = columns(t, p, positive);
    let not_to_hold = columns(t, p, negative);
    ((to_hold & !held) | (not_to_hold & held)) != 0
}

// A need of one of a relation's bound facts is unmet: four groups, one for each parameter in the first place. In most groups of a state none of the
// facts holds, and the needs to hold decide.
pub fn needs_unmet(
    t: &[u16; 32],
    p: Placement,
    state: &[u8; limits::STATE_SIZE],
    positive: u16,
    negative: u16,
) -> bool
    requires { Within p }
    ensures { ForColumns t.now p (λ ys. result ≡ word_unmet state.now (facts p ys) positive negative) }
{
    if groups_clear(t, p, state) {
        return positive != 0;
    }
    group_unmet(t, p, state, 0, positive % 16, negative % 16)
        | group_unmet(t, p, state, 1, positive / 16 % 16, negative / 16 % 16)
        | group_unmet(t, p, state, 2, positive / 256 % 16, negative / 256 % 16)
        | group_unmet(t, p, state, 3, positive / 4096 % 16, negative / 4096 % 16)
}

// ---- effects

fn changed(group: u16, columns: u16, value: bool) -> u16
    ensures { result ≡ changed value group columns }
{
    if value {
        return group | columns;
    }
    group & !columns
}

// Puts the value at the facts in a parameter's group and a set of columns.
fn put_group(p: Placement, q: usize, columns: u16, value: bool, state: &mut [u8])
    requires { (length state.old ≡ state_size) × Within p × (q < max_params) }
    ensures { state.new ≡ put_at value (in_group (group_of p q) columns) state.old }
{
    let at = 2 * group(p, q);
    let bits = changed(word_at(state, at), columns, value);
    let [low, high] = bits.to_le_bytes();
    state[at] = low;
    state[at + 1] = high;
}

// The same of a relation's bound facts in a word: four groups, one for each parameter in the first place.
pub fn put_groups(t: &[u16; 32], p: Placement, bits: u16, value: bool, state: &mut [u8])
    requires { (length state.old ≡ state_size) × Within p }
    ensures { ForColumns t.now p (λ ys. state.new ≡ put_at value (in_word (facts p ys) bits) state.old) }
{
    put_group(p, 0, columns(t, p, bits % 16), value, state);
    put_group(p, 1, columns(t, p, bits / 16 % 16), value, state);
    put_group(p, 2, columns(t, p, bits / 256 % 16), value, state);
    put_group(p, 3, columns(t, p, bits / 4096 % 16), value, state);
}
