// The rules of a move from what the learner has observed, and the rule sheet: each move's four sets, by value and as the bytes of its block.
// Uses observed for the sets that are observed, output for the bytes, terms, limits, and the names of a move's four sets from jobs;
// each contract names its definition, of observed or of specs/Sheet.antt.
#![tactic(auto)]

ghost use Rattle.std.specs.Prelude.{◌≡◌, ◌+◌, ◌*◌, ◌≤◌, ◌<◌, length};
ghost use Rattle.limits.specs.Limits.{observed_size, max_moves, set_size, rule_size};
ghost use Rattle.output.specs.Written.{written};
ghost use Rattle.jobs.specs.RuleSets.{place_of};
ghost use Rattle.observed.specs.Observed.{MoveObserved};
ghost use Rattle.observed.specs.Rules.{sheet_observed};
ghost use Rattle.rulesheet.specs.Sheet.{rule_sets, block, source};

use jobs::RuleSet;
use observed::SeenSet;
use terms::Move;

// ---- the rules of a move

// The four sets of a move: needed to hold, needed not to hold, added, removed.
#[tactic(auto, unfolding(crate::specs::Sheet::rule_sets, observed::specs::Rules::rule_set))]
pub fn rules_of(observed: &[u8], m: Move) -> [[u8; 32]; 4]
    requires { MoveObserved observed.now m.0 }
    ensures { result ≡ rule_sets observed.now m.0 }
{
    let bound = observed::observed_set(observed, m, SeenSet::Bound);
    [
        observed::observed_set(observed, m, SeenSet::AlwaysBefore),
        observed::outside_observed(bound, observed, m, SeenSet::EverBefore),
        observed::observed_set(observed, m, SeenSet::Added),
        observed::observed_set(observed, m, SeenSet::Deleted),
    ]
}

// ---- the sheet

// One of the four sets of a block. A set by value: its length is known here, and its contract says it to callers that have it in an array.
fn write_set(part: &mut [u8], which: RuleSet, set: [u8; 32])
    requires { set_size * place_of which + set_size ≤ length part.old }
    ensures { (part.new ≡ written part.old (set_size * place_of which) set) × (length set ≡ set_size) }
{
    output::write_bytes(part, limits::SET_SIZE * which.place(), &set);
}

fn write_rules(part: &mut [u8], rules: [[u8; 32]; 4])
    requires { rule_size ≤ length part.old }
    ensures { part.new ≡ written part.old 0 (block rules) }
{
    let [pre_pos, pre_neg, add, delete] = rules;
    write_set(part, RuleSet::PrePos, pre_pos);
    write_set(part, RuleSet::PreNeg, pre_neg);
    write_set(part, RuleSet::Add, add);
    write_set(part, RuleSet::Delete, delete);
}

// The blocks of all moves, one after the other from the first byte on. What is observed lies apart, or the sheet is written over it: a block is
// shorter than the seven sets of a move, and is written when these have been read, so the sets of the moves behind it stay.
fn write_blocks(moves: u16, apart: Option<&[u8]>, sheet: &mut [u8])
    requires { (moves ≤ max_moves) × (rule_size * moves ≤ length sheet.old) × (length (source apart sheet.old) ≡ observed_size) }
    ensures { sheet.new ≡ written sheet.old 0 (sheet_observed (source apart.entry sheet.old) moves 1) }
{
    for i in 0..moves as usize {
        let rules = rules_of(apart.unwrap_or(sheet), Move((i + 1) as u8));
        // The part of the sheet from a move on is lent to the writer of its rules.
        write_rules(&mut sheet[limits::RULE_SIZE * i..], rules);
    }
}

pub fn write_sheet(moves: u16, observed: &[u8], sheet: &mut [u8])
    requires { (length sheet.old ≡ rule_size * moves) × (moves ≤ max_moves) × (length observed.now ≡ observed_size) }
    ensures { sheet.new ≡ sheet_observed observed.now moves 1 }
{
    write_blocks(moves, Some(observed), sheet);
}

// The sheet written over what is observed.
pub fn write_over(moves: u16, observed: &mut [u8])
    requires { (moves ≤ max_moves) × (length observed.old ≡ observed_size) }
    ensures { observed.new ≡ written observed.old 0 (sheet_observed observed.old moves 1) }
{
    write_blocks(moves, None, observed);
}
