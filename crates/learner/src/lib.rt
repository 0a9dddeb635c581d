// Learning from a book of either form: the records walked once, each looked over and observed; then rows 11 to 13 and the rule sheet from what is observed.
// Where some step did not go, the records are walked again for row 28.
// Uses sections and observerecords for the rows of the form, observestep for what is observed before any record, rulesheet and conflicts for what comes of what is
// observed, failedsteps for row 28, answer, limits and terms, and the definitions of jobs and observed.
#![tactic(auto)]

ghost use Rattle.answer.specs.Refusal.{answer_of, row_of};
ghost use Rattle.std.specs.Prelude.{◌≡◌, ℕ};
ghost use Rattle.answer.specs.Answer.{Good};
ghost use Rattle.format.specs.LookOver.{look_over};
ghost use Rattle.jobs.specs.Learn.{refutation};
ghost use Rattle.observed.specs.Observed.{observed_of};
ghost use Rattle.limits.specs.Limits.{observed_size};
ghost use Rattle.mask.specs.Sets.{empty};
ghost use Rattle.learner.specs.Learner.{FormObserved, BookObserved, LearnOutcome};
ghost use Rattle.terms.specs.Sections.{sections_of};

use answer::{Reason, Refusal};
use observerecords::noticed::Walked;
use terms::Sections;

// Rows 1 to 10 and 27: the book looked over and observed in one walk.
fn observe_form(s: &[u8], short: bool, h: Sections, observed: &mut [u8]) -> Result<Walked, Refusal>
    requires { (h ≡ sections_of s.now) × (observed.old ≡ empty observed_size) }
    ensures { FormObserved short s.now observed.new result }
{
    sections::sections(s, h)?;
    observestep::nothing_seen(s, h, observed);
    observerecords::walk::records(
        s,
        short,
        h,
        h.records.count as usize,
        h.records.at as usize,
        observed,
    )
}

// Row 28 of a book that is observed. Where all steps went, its records are not walked again. The second walk is called for each form by itself: called in
// one place the compiler puts it into the first walk, whose loops over facts then take a tenth longer.
fn refutation(
    s: &[u8],
    short: bool,
    h: Sections,
    observed: &[u8],
    failed: bool,
) -> Result<(), Refusal>
    requires { (h ≡ sections_of s.now) × ((n : ℕ) × (look_over short s.now ≡ Good n)) × (observed.now ≡ (observed_of short s.now).masks) × (failed ≡ (observed_of short s.now).failed) }
    ensures { row_of result ≡ refutation short s.now }
{
    if !failed {
        return Ok(());
    }
    if short {
        failedsteps::first_refuted(s, true, h, observed)?;
        return Ok(());
    }
    failedsteps::first_refuted(s, false, h, observed)?;
    Ok(())
}

// Rows 1 to 12 and 28: then what rows 11 and 12 say of what is observed, and where some step did not go, row 28.
pub fn observe_book(
    s: &[u8],
    short: bool,
    h: Sections,
    observed: &mut [u8],
) -> Result<usize, Refusal>
    requires { (h ≡ sections_of s.now) × (observed.old ≡ empty observed_size) }
    ensures { BookObserved short s.now observed.new (answer_of result) }
{
    let w = observe_form(s, short, h, observed)?;
    conflicts::unbound_answer(w.noticed.named)?;
    conflicts::conflict_among(h.moves.count, observed)?;
    refutation(s, short, h, observed, w.noticed.failed)?;
    Ok(w.value)
}

// Rows 1 to 13, and the rule sheet.
pub fn learn(s: &[u8], short: bool, sheet: &mut [u8]) -> Result<usize, Refusal>
    ensures { LearnOutcome short s.now sheet.old sheet.new (answer_of result) }
{
    let h = Sections::read(s);
    let mut observed = [0u8; limits::OBSERVED_SIZE];
    let total = observe_book(s, short, h, &mut observed)?;
    if sheet.len() != limits::RULE_SIZE * h.moves.count as usize {
        return Err(Reason::Room.at(0));
    }
    rulesheet::write_sheet(h.moves.count, &observed, sheet);
    Ok(total)
}
