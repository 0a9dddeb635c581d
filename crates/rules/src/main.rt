// The program that prints the rules learned from a book on standard input.
// Uses listing for the text, which is proved to be jobs' rules_printed of what was read, lines for the memory that it is put in, and streams to write it
// to its end.
#![tactic(auto)]

use lines::Text;
use std::time::Clock;

fn print_rules<R: Clock + Print, E: Print>(rt: &R, errors: &E, book: &[u8]) {
    let mut text = Text::new();
    listing::rules_listing(book, &mut text);
    streams::print(rt, errors, text.as_slice(), b"rules: standard output");
}

// One byte more than a book may have is read, and no further.
fn main(rt: HostRuntime) {
    let errors = rt.stderr();
    if streams::refuse_arguments(
        &rt,
        &errors,
        b"usage: rules < BOOK\nPrints the rules that are learned from a book. Takes no arguments.\n",
    ) {
        return;
    }
    let mut memory = [0u8; limits::MAX_LENGTH + 1];
    let book = streams::read(&rt, &mut rt.stdin(), &mut memory);
    print_rules(&rt, &errors, book);
}
