// Tables of what suits, made once for a record or an order: each fact and each step is then tested by a few reads. Uses input, terms,
// limits, and objectset, whose sets stand in the tables.
#![tactic(auto)]

ghost use Rattle.std.specs.Prelude.{◌≡◌, ◌≤◌, ◌<◌, length};
ghost use Rattle.limits.specs.Limits.{max_params, near_ceiling};
ghost use Rattle.mask.specs.Sets.{empty};
ghost use Rattle.objectset.specs.Sets.{stored};
ghost use Rattle.terms.specs.Schema.{schema, typed_objects};
ghost use Rattle.terms.specs.Steps.{step_bad};
ghost use Rattle.tables.specs.Tables.{Joined, RightByKind, place_set, RightFrom, ForRightByKind, move_entry, argument};

use objectset::Asked;
use terms::{Binding, Objects, Param, Relation, Sections, Step};

// Puts an object into the set of its own kind and of each kind above it. Any bytes may stand as parents, even in a circle, so no more kinds are
// looked at than a book may have.
fn put_object(book: &[u8], h: Sections, kinds: &mut [u32; 256], kind: u8, x: u8)
    requires { (x < 32) × (length kinds.old ≡ 256) }
    ensures { Joined (schema h book.now) kind x kinds.old kinds.new }
{
    let mut k = kind;
    for _ in 0..limits::MAX_KINDS {
        objectset::put(kinds, k as usize, x);
        k = h.parent(book, k);
        if k == 0 {
            return;
        }
    }
}

// A table with nothing in it.
#[tactic(auto, unfolding(mask::specs::Sets::empty))]
pub fn empty<const N: usize>() -> [u32; N]
    ensures { result ≡ empty N }
{
    [0; N]
}

// Puts the objects in `s` into an empty table by kind. The table is lent, since a large one would be copied when it is returned.
pub fn put_objects(book: &[u8], h: Sections, s: &[u8], objects: Objects, kinds: &mut [u32; 256])
    requires { (objects.at ≤ near_ceiling) × (objects.count < 32) × (kinds.old ≡ empty 256) }
    ensures { RightByKind (schema h book.now) (typed_objects objects s.now) kinds.new }
{
    for x in 1..objects.count + 1 {
        let kind = input::byte_at(s, objects.at + (x as usize - 1));
        put_object(book, h, kinds, kind, x);
    }
}

// The table by kind, of the objects in `s`.
pub fn kinds_of(book: &[u8], h: Sections, s: &[u8], objects: Objects) -> [u32; 256]
    requires { (objects.at ≤ near_ceiling) × (objects.count < 32) }
    ensures { RightByKind (schema h book.now) (typed_objects objects s.now) result }
{
    let mut kinds = empty();
    put_objects(book, h, s, objects, &mut kinds);
    kinds
}

fn place_set(book: &[u8], h: Sections, kinds: &[u32; 256], r: Relation, i: u8) -> u32
    ensures { result ≡ place_set (schema h book.now) kinds.now r i }
{
    if i <= h.places(book, r) {
        objectset::entry(kinds, h.place_kind(book, r, i) as usize)
    } else {
        1
    }
}

// Stores the sets of all relations in an empty table. A fact has its relation in one byte, so relations over 255 have no entry.
pub fn store_places(book: &[u8], h: Sections, kinds: &[u32; 256], t: &mut [u32; 512])
    requires { t.old ≡ empty 512 }
    ensures { RightFrom (schema h book.now) kinds.now t.new }
{
    for r in 1..256.min(h.relations.count as usize + 1) {
        let relation = Relation(r as u8);
        let first = place_set(book, h, kinds, relation, 1);
        let second = place_set(book, h, kinds, relation, 2);
        objectset::store(t, r, first);
        objectset::store(t, 256 + r, second);
    }
}

// The table by relation.
pub fn table_of(book: &[u8], h: Sections, kinds: &[u32; 256]) -> [u32; 512]
    ensures { RightFrom (schema h book.now) kinds.now result }
{
    let mut t = empty();
    store_places(book, h, kinds, &mut t);
    t
}

// A move's entry in a book: how many parameters it has, and the kind of each. One that lies within the book is read without a test of each byte, which
// saves time at every step.
#[tactic(auto, unfolding(crate::specs::Tables::move_entry, input::specs::Bytes::byte_at))]
fn entry_at(book: &[u8], at: usize) -> [u8; 5]
    requires { at ≤ near_ceiling }
    ensures { result ≡ move_entry book.now at }
{
    match book.get(at..).and_then(|s| s.first_chunk()) {
        Some(entry) => *entry,
        None => std::array::from_fn(|i| input::byte_at(book, at + i)),
    }
}

// The object given for a parameter, and the objects that suit it: those of its kind, or, where the move has fewer parameters, object 0.
fn argument(kinds: &[u32; 256], params: u8, i: u8, kind: u8, b: Binding) -> Asked
    requires { i ≤ max_params }
    ensures { result ≡ argument kinds.now params i kind b }
{
    let set = objectset::entry(kinds, kind as usize);
    let object = b.object(Param(i)).0;
    if i <= params {
        Asked { set, object }
    } else {
        Asked { set: 1, object }
    }
}

// Rows 9 and 18 of a step's move and objects: the move is not there, or a parameter has an object that does not suit.
pub fn step_bad(book: &[u8], h: Sections, kinds: &[u32; 256], st: Step) -> bool
    ensures { ForRightByKind (schema h book.now) kinds.now (λ ob. result ≡ step_bad (schema h book.now) ob st) }
{
    if terms::out_of_range(h.moves.count, st.action.0 as u16) {
        return true;
    }
    let [params, first, second, third, fourth] = entry_at(book, h.move_at(st.action));
    let b = st.binding;
    !objectset::all_in([
        argument(kinds, params, 1, first, b),
        argument(kinds, params, 2, second, b),
        argument(kinds, params, 3, third, b),
        argument(kinds, params, 4, fourth, b),
    ])
}
