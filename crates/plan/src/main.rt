// The program that checks a plan: the files `book` and `order` of the folder that it runs in.
// Uses checker for the answer, whose position is not printed, lines for the text, which is proved to be jobs' plan_printed of what was read, and streams to write it.
#![tactic(auto)]

ghost use Rattle.std.specs.Prelude.{◌≡◌, ◌≤◌, length};
ghost use Rattle.answer.specs.Refusal.{positioned_of};
ghost use Rattle.jobs.specs.Listing.{plan_line, plan_printed};

use answer::CheckRefusal;
use lines::Text;
use std::fs::File;
use std::rt::Files;
use std::time::Clock;

// A file that can't be read counts as empty.
fn load<'a, R: Files + Clock>(rt: &R, path: &str, memory: &'a mut [u8]) -> &'a [u8]
    ensures { length result.now ≤ length memory.old }
{
    match File::open(rt, path) {
        Ok(mut file) => streams::read(rt, &mut file, memory),
        Err(_) => &memory[..0],
    }
}

// The line does not say which start of the order a refusal is about.
#[tactic(auto, unfolding(jobs::specs::Listing::plan_line))]
fn answer_line(checked: Result<usize, CheckRefusal>) -> Text<128>
    ensures { result ≡ plan_line (positioned_of checked).answer }
{
    let mut text = Text::new();
    match checked {
        Ok(steps) => {
            text.put(b"passes ");
            text.put_decimal(steps);
            text.put(b"\n");
        }
        Err(CheckRefusal::BeforeStarts(refusal) | CheckRefusal::AtStart(_, refusal)) => {
            lines::refused_line(refusal.reason.number(), refusal.place, &mut text)
        }
    }
    text
}

#[tactic(auto, unfolding(jobs::specs::Listing::plan_printed))]
fn plan_line(book: &[u8], order: &[u8]) -> Text<128>
    ensures { result ≡ plan_printed book.now order.now }
{
    let mut end = [0u8; limits::END_SHEET_SIZE];
    answer_line(checker::check(book, false, order, &mut end))
}

fn print_plan<R: Clock + Print, E: Print>(rt: &R, errors: &E, book: &[u8], order: &[u8]) {
    let text = plan_line(book, order);
    streams::print(rt, errors, text.as_slice(), b"plan: standard output");
}

// One byte more than a book may have is read of each file, and no further.
fn main(rt: HostRuntime) {
    let errors = rt.stderr();
    if streams::refuse_arguments(
        &rt,
        &errors,
        b"usage: plan\nChecks the plan of the files `book` and `order` in this folder. Takes no arguments.\n",
    ) {
        return;
    }
    let mut book = [0u8; limits::MAX_LENGTH + 1];
    let mut order = [0u8; limits::MAX_LENGTH + 1];
    let book = load(&rt, "book", &mut book);
    let order = load(&rt, "order", &mut order);
    print_plan(&rt, &errors, book, order);
}
