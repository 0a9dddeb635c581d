// The words of the formats as values: typed numbers, sections, a record's head, facts and steps, each read from bytes, and the tests that need no table.
// Uses input, limits, and objectset for the tables that tell whether a fact suits; crate `tables` makes these. Every test is one Bool definition of specs/.
#![tactic(auto)]

ghost use Rattle.std.specs.Prelude.{◌≡◌, ◌+◌, ◌-◌, ◌≤◌, ◌<◌, length};
ghost use Rattle.limits.specs.Limits.{max_length, max_params, max_atoms, fact_size, step_size, near_ceiling, far_ceiling};
ghost use Rattle.terms.specs.Sections.{sections_of};
ghost use Rattle.terms.specs.Head.{head_of};
ghost use Rattle.terms.specs.Schema.{schema, out_of_range, relation_at, move_at};
ghost use Rattle.terms.specs.Facts.{fact_at, precedes, no_fact, fact_number};
ghost use Rattle.terms.specs.Told.{suits, fact_key};
ghost use Rattle.terms.specs.Steps.{object_of, step_at, same_pair, repeats, atom_relation, atom_first, atom_second};

use objectset::Asked;

// Numbers that count from 1. Each has a type of its own, so that a binding is the only way from a parameter to an object.
#[derive(Clone, Copy, Debug, PartialEq, Eq)]
pub struct Param(pub u8);

#[derive(Clone, Copy, Debug, PartialEq, Eq)]
pub struct Object(pub u8);

#[derive(Clone, Copy, Debug, PartialEq, Eq)]
pub struct Relation(pub u8);

#[derive(Clone, Copy, Debug, PartialEq, Eq)]
pub struct Move(pub u8);

// A section of a book: how many entries, from which offset.
#[derive(Clone, Copy, Debug, PartialEq, Eq)]
pub struct Section {
    pub count: u16,
    pub at: u16,
}

#[derive(Clone, Copy, Debug, PartialEq, Eq)]
pub struct Sections {
    pub kinds: u16,
    pub relations: Section,
    pub moves: Section,
    pub records: Section,
    pub end: u16,
}

// A record's head: how many objects it has, how many steps, and how many bytes.
#[derive(Clone, Copy, Debug, PartialEq, Eq)]
pub struct Head {
    pub objects: u8,
    pub steps: u8,
    pub length: u16,
}

// The kind bytes of the objects of a record or an order: how many, from which offset.
#[derive(Clone, Copy, Debug, PartialEq, Eq)]
pub struct Objects {
    pub count: u8,
    pub at: usize,
}

#[derive(Clone, Copy, Debug, PartialEq, Eq)]
pub struct Fact {
    pub relation: Relation,
    pub first: Object,
    pub second: Object,
}

#[derive(Clone, Copy, Debug, PartialEq, Eq)]
pub struct Binding {
    pub objects: [Object; 4],
}

#[derive(Clone, Copy, Debug, PartialEq, Eq)]
pub struct Step {
    pub action: Move,
    pub binding: Binding,
}

impl Head {
    #[tactic(auto, unfolding(crate::specs::Head::head_of))]
    pub fn read(s: &[u8], at: usize) -> Head
        requires { at ≤ max_length }
        ensures { result ≡ head_of s.now at }
    {
        Head {
            objects: input::byte_at(s, at),
            steps: input::byte_at(s, at + 1),
            length: input::two_at(s, at + 2),
        }
    }
}

impl Sections {
    #[tactic(auto, unfolding(crate::specs::Sections::sections_of))]
    pub fn read(s: &[u8]) -> Sections
        ensures { result ≡ sections_of s.now }
    {
        let section = |count, at| Section {
            count: input::two_at(s, count),
            at: input::two_at(s, at),
        };
        Sections {
            kinds: input::two_at(s, 0),
            relations: section(2, 8),
            moves: section(4, 10),
            records: section(6, 12),
            end: input::two_at(s, 14),
        }
    }

    #[tactic(auto, unfolding(crate::specs::Schema::relation_at))]
    pub fn relation_at(self, r: Relation) -> usize
        ensures { (result ≡ relation_at self r) × (result ≤ near_ceiling) }
    {
        self.relations.at as usize + limits::RELATION_SIZE * index(r.0)
    }

    #[tactic(auto, unfolding(crate::specs::Schema::move_at))]
    pub fn move_at(self, m: Move) -> usize
        ensures { (result ≡ move_at self m) × (result ≤ near_ceiling) }
    {
        self.moves.at as usize + limits::MOVE_SIZE * index(m.0)
    }

    // The parent of a kind, 0 where it has none.
    pub fn parent(self, book: &[u8], kind: u8) -> u8
        ensures { result ≡ (schema self book.now).parent kind }
    {
        let at = limits::HEADER_SIZE + index(kind);
        if at < self.relations.at as usize {
            return input::byte_at(book, at);
        }
        0
    }

    // A relation's entry in a book: how many places it has, and the kind of one of them.
    #[tactic(auto, unfolding(crate::specs::Schema::schema))]
    pub fn places(self, book: &[u8], r: Relation) -> u8
        ensures { result ≡ (schema self book.now).places r }
    {
        input::byte_at(book, self.relation_at(r))
    }

    #[tactic(auto, unfolding(crate::specs::Schema::schema))]
    pub fn place_kind(self, book: &[u8], r: Relation, i: u8) -> u8
        ensures { result ≡ (schema self book.now).place_kind r i }
    {
        input::byte_at(book, self.relation_at(r) + i as usize)
    }

    // A move's entry: how many parameters it has, and the kind of one of them.
    #[tactic(auto, unfolding(crate::specs::Schema::schema))]
    pub fn params(self, book: &[u8], m: Move) -> u8
        ensures { result ≡ (schema self book.now).params m }
    {
        input::byte_at(book, self.move_at(m))
    }

    #[tactic(auto, unfolding(crate::specs::Schema::schema))]
    pub fn param_kind(self, book: &[u8], m: Move, p: Param) -> u8
        ensures { result ≡ (schema self book.now).param_kind m p }
    {
        input::byte_at(book, self.move_at(m) + p.0 as usize)
    }
}

// The relation and the two parameters of bound fact n.
#[tactic(auto, unfolding(crate::specs::Steps::atom_relation))]
pub fn atom_relation(n: usize) -> Relation
    requires { n < max_atoms }
    ensures { result ≡ atom_relation n }
{
    Relation((n / 16 + 1) as u8)
}

#[tactic(auto, unfolding(crate::specs::Steps::atom_first))]
pub fn atom_first(n: usize) -> Param
    ensures { result ≡ atom_first n }
{
    Param((n / 4 % 4 + 1) as u8)
}

#[tactic(auto, unfolding(crate::specs::Steps::atom_second))]
pub fn atom_second(n: usize) -> Param
    ensures { result ≡ atom_second n }
{
    Param((n % 4 + 1) as u8)
}

// A number from 1 as one from 0. As a usize: subtracted as bytes, the three numbers of a fact go through vector registers.
pub fn index(n: u8) -> usize
    ensures { (result ≡ n - 1) × (result ≤ 254) }
{
    (n as usize).saturating_sub(1)
}

#[tactic(auto, unfolding(crate::specs::Schema::out_of_range))]
pub fn out_of_range(count: u16, n: u16) -> bool
    ensures { result ≡ out_of_range count n }
{
    (n < 1) | (count < n)
}

impl Fact {
    // A fact whose bytes are all there: no offset is tested, which saves time in a loop over facts.
    #[tactic(auto, unfolding(crate::specs::Facts::fact_at, input::specs::Bytes::byte_at))]
    pub fn read(s: &[u8], at: usize) -> Fact
        requires { (at ≤ far_ceiling) × (at + fact_size ≤ length s.now) }
        ensures { result ≡ fact_at s.now at }
    {
        Fact {
            relation: Relation(s[at]),
            first: Object(s[at + 1]),
            second: Object(s[at + 2]),
        }
    }

    // Before the first fact of a list stands this one.
    #[tactic(auto, unfolding(crate::specs::Facts::no_fact))]
    pub fn none() -> Fact
        ensures { result ≡ no_fact }
    {
        Fact {
            relation: Relation(0),
            first: Object(0),
            second: Object(0),
        }
    }

    // Suit: the table tells which objects its places may have.
    #[tactic(auto, unfolding(crate::specs::Told::suits, objectset::specs::Sets::is_in))]
    pub fn suits(self, table: &[u32; 512]) -> bool
        ensures { result ≡ suits table.now self }
    {
        let r = self.relation.0 as usize;
        objectset::all_in([
            Asked {
                set: objectset::entry(table, r),
                object: self.first.0,
            },
            Asked {
                set: objectset::entry(table, 256 + r),
                object: self.second.0,
            },
        ])
    }

    // Its number in a state's mask.
    #[tactic(auto, unfolding(crate::specs::Facts::fact_number))]
    pub fn number(self) -> usize
        ensures { result ≡ fact_number self }
    {
        256 * index(self.relation.0) + 16 * index(self.first.0) + index(self.second.0)
    }

    // Its bytes as one number: facts stand in the order of their keys. With u32::from_be_bytes a loop over facts takes a fifth longer.
    #[tactic(auto, unfolding(crate::specs::Told::fact_key))]
    pub fn key(self) -> u32
        ensures { result ≡ fact_key self }
    {
        self.relation.0 as u32 * 65536 + self.first.0 as u32 * 256 + self.second.0 as u32
    }

    // Order, byte by byte: it stands after `last`, whose key is told, so that a loop over facts makes each key once.
    pub fn follows(self, last: Fact, key: u32) -> bool
        requires { key ≡ fact_key last }
        ensures { result ≡ precedes last self }
    {
        key < self.key()
    }
}

impl Binding {
    #[tactic(auto, unfolding(crate::specs::Steps::object_of))]
    pub fn object(self, p: Param) -> Object
        requires { p.0 ≤ max_params }
        ensures { result ≡ object_of self p }
    {
        self.objects[index(p.0)]
    }
}

impl Step {
    // A step whose bytes are there.
    #[tactic(auto, unfolding(crate::specs::Steps::step_at, input::specs::Bytes::byte_at))]
    pub fn read(s: &[u8], at: usize) -> Step
        requires { (at ≤ far_ceiling) × (at + step_size ≤ length s.now) }
        ensures { result ≡ step_at s.now at }
    {
        Step {
            action: Move(s[at]),
            binding: Binding {
                objects: [
                    Object(s[at + 1]),
                    Object(s[at + 2]),
                    Object(s[at + 3]),
                    Object(s[at + 4]),
                ],
            },
        }
    }

    #[tactic(auto, unfolding(crate::specs::Steps::same_pair))]
    fn same_pair(self, i: u8, j: u8) -> bool
        requires { (i ≤ max_params) × (j ≤ max_params) }
        ensures { result ≡ same_pair self i j }
    {
        let b = self.binding;
        let x = b.object(Param(i));
        let y = b.object(Param(j));
        (0 < y.0) & (x.0 == y.0)
    }

    // Row 10.
    #[tactic(auto, unfolding(crate::specs::Steps::repeats))]
    pub fn repeats(self) -> bool
        ensures { result ≡ repeats self }
    {
        self.same_pair(1, 2)
            | self.same_pair(1, 3)
            | self.same_pair(1, 4)
            | self.same_pair(2, 3)
            | self.same_pair(2, 4)
            | self.same_pair(3, 4)
    }
}
