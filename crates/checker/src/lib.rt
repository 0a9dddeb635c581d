// Checking a plan: the book's rows 1 to 12 as in learning, row 13 for the end sheet, the order's rows 14 to 18, then the plan and its goal
// from each start. The book is learned once, whatever the number of starts; its rules are then written over what was observed, which is not
// needed any more.
// Uses learner, rulesheet, orders, starts, answer, terms and limits.
#![tactic(auto)]

ghost use Rattle.answer.specs.Refusal.{positioned_of};
ghost use Rattle.checker.specs.Checker.{ReadyForOrder, OrderOutcome, CheckOutcome};

use answer::{CheckRefusal, Reason};
use terms::Sections;

// Rows 14 to 20 for a book that learning does not refuse, with an end sheet of 512 bytes.
fn check_order(
    s: &[u8],
    short: bool,
    h: Sections,
    observed: &mut [u8],
    o: &[u8],
    end: &mut [u8],
) -> Result<usize, CheckRefusal>
    requires { ReadyForOrder short s.now h observed.old end.old }
    ensures { OrderOutcome short s.now o.now end.old end.new (positioned_of result) }
{
    orders::order_form(s, h, o)?;
    rulesheet::write_over(h.moves.count, observed);
    let size = limits::RULE_SIZE * h.moves.count as usize;
    starts::run_order(s, h, &observed[..size], o, end)
}

pub fn check(s: &[u8], short: bool, o: &[u8], end: &mut [u8]) -> Result<usize, CheckRefusal>
    ensures { CheckOutcome short s.now o.now end.old end.new (positioned_of result) }
{
    let h = Sections::read(s);
    let mut observed = [0u8; limits::OBSERVED_SIZE];
    learner::observe_book(s, short, h, &mut observed)?;
    if end.len() != limits::END_SHEET_SIZE {
        return Err(CheckRefusal::BeforeStarts(Reason::Room.at(0)));
    }
    check_order(s, short, h, &mut observed, o, end)
}
