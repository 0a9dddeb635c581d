// One step over a state of facts as a mask of 512 bytes: whether it is inapplicable, and the state after it, by the rules that are lent, 128 bytes
// a move as a rule sheet has them. Sets of bound facts are read where they stand, sixteen of a relation at once, and tested or put by groups of the state.
// Uses limits, terms, factgroups, grounding, the sets of a move from jobs, and the definitions of mask and statemask; each contract names its definition.
#![tactic(auto)]

ghost use Rattle.std.specs.Prelude.{◌≡◌, length};
ghost use Rattle.limits.specs.Limits.{state_size, atoms_per_relation};
ghost use Rattle.mask.specs.Bits.{test_bit};
ghost use Rattle.mask.specs.Sets.{number};
ghost use Rattle.terms.specs.Schema.{schema};
ghost use Rattle.factgroups.specs.Groups.{StartsRelation, Tables};
ghost use Rattle.grounding.specs.Grounding.{indices};
ghost use Rattle.jobs.specs.SheetBits.{sheet_set};
ghost use Rattle.jobs.specs.RuleSets.{place_of};
ghost use Rattle.statemask.specs.Statemask.{rules_in, step_inapplicable, step_next};
ghost use Rattle.stepping.specs.Stepping.{Steppable, relation_unmet, Advances, StepExecuted};

use jobs::RuleSet;
use terms::{Sections, Step};

// A step with the book and the rules that are lent, the numbers of its objects, and the table of their columns, which needs and effects share.
#[derive(Drop)]
struct Execution<'a> {
    book: &'a [u8],
    h: Sections,
    step: Step,
    rules: &'a [u8],
    objects: [usize; 4],
    table: [u16; 32],
    ghost steppable: { Steppable rules.now step },
    ghost own: { objects ≡ indices step.binding },
    ghost right: { Tables table objects },
}

impl Execution<'_> {
    // A relation's bound facts in a set of the step's move, n being the first of them.
    fn set_word(&self, set: RuleSet, n: usize) -> u16
        requires { StartsRelation n }
        ensures { result ≡ number (test_bit (sheet_set self.now.rules.now (place_of set) self.now.step.action.0)) n atoms_per_relation }
    {
        let group = limits::RULE_SIZE * (self.step.action.0 as usize - 1);
        factgroups::word_at(self.rules, group + limits::SET_SIZE * set.place() + n / 8)
    }

    // ---- needs

    // A need of one of a relation's bound facts is unmet. Where none is needed, no group is read.
    fn relation_unmet(&self, state: &[u8; limits::STATE_SIZE], n: usize) -> bool
        requires { StartsRelation n }
        ensures { result ≡ relation_unmet (schema self.now.h self.now.book.now) (rules_in self.now.rules.now) self.now.step state.now n }
    {
        let needed = self.set_word(RuleSet::PrePos, n);
        let needed_not = self.set_word(RuleSet::PreNeg, n);
        if (needed | needed_not) == 0 {
            return false;
        }
        let p = grounding::placement(self.book, self.h, self.objects, n);
        factgroups::needs_unmet(&self.table, p, state, needed, needed_not)
    }

    // A need of one of the bound facts of the step's move is unmet, relation by relation.
    fn is_inapplicable(&self, state: &[u8; limits::STATE_SIZE]) -> bool
        ensures { result ≡ step_inapplicable (schema self.now.h self.now.book.now) (rules_in self.now.rules.now) self.now.step state.now }
    {
        for r in 0..limits::MAX_RELATIONS as usize {
            if self.relation_unmet(state, limits::ATOMS_PER_RELATION * r) {
                return true;
            }
        }
        false
    }

    // ---- effects

    // The effects of a relation's bound facts: the removed facts go first. Where there are none, no group is read.
    fn put_relation(&self, n: usize, state: &mut [u8])
        requires { (length state.old ≡ state_size) × StartsRelation n }
        ensures { Advances (schema self.now.h self.now.book.now) (rules_in self.now.rules.now) self.now.step n state.old state.new }
    {
        let removed = self.set_word(RuleSet::Delete, n);
        let added = self.set_word(RuleSet::Add, n);
        if (removed | added) == 0 {
            return;
        }
        let p = grounding::placement(self.book, self.h, self.objects, n);
        factgroups::put_groups(&self.table, p, removed, false, state);
        factgroups::put_groups(&self.table, p, added, true, state);
    }

    // The effects of all bound facts of the step's move, relation by relation.
    fn put_effects(&self, state: &mut [u8])
        requires { length state.old ≡ state_size }
        ensures { state.new ≡ step_next (schema self.now.h self.now.book.now) (rules_in self.now.rules.now) self.now.step state.old }
    {
        for r in 0..limits::MAX_RELATIONS as usize {
            self.put_relation(limits::ATOMS_PER_RELATION * r, state);
        }
    }
}

// One step: whether it is inapplicable, and if not, the state after it.
pub fn execute_step(
    book: &[u8],
    h: Sections,
    step: Step,
    rules: &[u8],
    state: &mut [u8; limits::STATE_SIZE],
) -> bool
    requires { Steppable rules.now step }
    ensures { StepExecuted (schema h book.now) (rules_in rules.now) step state.old result state.new }
{
    let objects = grounding::indices(step.binding);
    let table = factgroups::column_table(objects);
    let execution = Execution {
        book,
        h,
        step,
        rules,
        objects,
        table,
    };
    if execution.is_inapplicable(state) {
        return true;
    }
    execution.put_effects(state);
    false
}
