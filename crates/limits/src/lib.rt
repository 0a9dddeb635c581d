// The paper's limits and sizes, each under one name, for code. specs/Limits.antt has them for definitions; every contract that a size
// enters is proved against those.
#![tactic(auto)]

// ---- a book

pub const MAX_LENGTH: usize = 60000;

// Of a book and of an order.
pub const HEADER_SIZE: usize = 16;

pub const MAX_KINDS: u16 = 8;

pub const MAX_RELATIONS: u16 = 16;

pub const MAX_MOVES: u16 = 32;

pub const MAX_RECORDS: u16 = 64;

pub const RELATION_SIZE: usize = 4;

pub const MOVE_SIZE: usize = 6;

pub const MAX_PLACES: u8 = 2;

pub const MAX_PARAMS: u8 = 4;

// ---- a record

pub const HEAD_SIZE: usize = 4;

pub const MAX_OBJECTS: u8 = 16;

pub const MAX_STEPS: u8 = 64;

pub const COUNT_SIZE: usize = 2;

pub const MAX_FACTS: u16 = 256;

// Of facts that turn, in a short book.
pub const MAX_TURNS: u16 = 512;

pub const FACT_SIZE: usize = 3;

pub const STEP_SIZE: usize = 5;

// Added to the move byte of a step that did not go.
pub const FAILED_MARK: u8 = 128;

// ---- an order

pub const MAX_STARTS: u16 = 16;

pub const MAX_ENTRIES: u16 = 64;

pub const ENTRY_SIZE: usize = 4;

// ---- the sheets

// A set of bound facts, a move's four sets, a state's set of facts, and the end sheet, in bytes.
pub const SET_SIZE: usize = 32;

pub const RULE_SIZE: usize = 128;

pub const STATE_SIZE: usize = 512;

pub const END_SHEET_SIZE: usize = 512;

// The most that a rule sheet comes to: the four sets of each move.
pub const SHEET_MAX: usize = 32 * RULE_SIZE;

// ---- what the learner has observed

// Seven sets of bound facts for each move, in bytes.
pub const OBSERVED_SETS: usize = 7;

pub const OBSERVED_PER_MOVE: usize = OBSERVED_SETS * SET_SIZE;

pub const OBSERVED_SIZE: usize = 32 * OBSERVED_PER_MOVE;

// ---- the numbers of bound facts

// Each is below this: eight to a byte of a set.
pub const MAX_ATOMS: usize = 8 * SET_SIZE;

pub const ATOMS_PER_RELATION: usize = 16;

// The bits of a move's four sets.
pub const RULE_BITS: usize = 8 * RULE_SIZE;
