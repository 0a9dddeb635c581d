// The text that the system has for an error.
ghost use Rattle.std.specs.Prelude.{◌≤◌, length};

use std::io::{Error, Write};

// std's text of an error ends in the error's number, in parentheses, which is left out: " (os error 28)".
fn before_number(text: &[u8]) -> &[u8]
    ensures { length result.now ≤ length text.now }
{
    match text.iter().rposition(|b| *b == b'(') {
        Some(at) => &text[..at.saturating_sub(1)],
        None => text,
    }
}

// The error's text, which is put at the start of `memory`.
pub fn text_of<'a>(error: Error, memory: &'a mut [u8; 256]) -> &'a [u8]
    ensures { length result.now ≤ length memory.old }
{
    let mut rest = &mut memory[..];
    let _ = write!(rest, "{error}");
    let left = rest.len();
    let written = &memory[..memory.len().saturating_sub(left)];
    match error.raw_os_error() {
        Some(_) => before_number(written),
        None => written,
    }
}
