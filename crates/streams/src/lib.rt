// What the two programs do with their streams: an input read and a text written to its end, and the usage on standard error.
// Uses io. No contract can say what is read or written; proved is that it stays within the memory given, and that it ends.
#![tactic(auto)]

ghost use Rattle.std.specs.Prelude.{◌<◌, ◌≤◌, length, IfOk};
ghost use Rattle.io.specs.Counts.{IsPrefixLen};

mod reason;

use std::env::{Env, FillError};
use std::io::{Error, ErrorKind, Read};
use std::thread;
use std::time::{Clock, Duration};

// How often in turn a stream may give or take nothing: ten minutes of pauses.
const MOST_PAUSES: usize = 60000;

// ---- a stream that does not block

// Whether a call that failed may succeed later: the stream has or takes nothing now and does not block, or a signal came.
fn is_temporary(error: &Error) -> bool {
    let kind = error.kind();
    kind == ErrorKind::WouldBlock || kind == ErrorKind::Interrupted
}

// Where a call that failed may succeed later, waits a hundredth of a second; how many pauses may still follow.
fn pause<C: Clock>(clock: &C, error: Error, pauses: usize) -> std::io::Result<usize>
    ensures { IfOk result (λ left. left < pauses) }
{
    if pauses == 0 || !is_temporary(&error) {
        return Err(error);
    }
    thread::sleep(clock, Duration::from_millis(10));
    Ok(pauses - 1)
}

// ---- reading

// The bytes that were read until the input ended or the memory was full; none where a read failed, for what can't be read counts as empty.
pub fn read<'a, C: Clock, R: Read>(clock: &C, input: &mut R, memory: &'a mut [u8]) -> &'a [u8]
    ensures { length result.now ≤ length memory.old }
{
    let size = fill(clock, input, memory);
    &memory[..size]
}

// Reads into the memory until the input ends or the memory is full; how many bytes were read, 0 where a read failed.
pub fn fill<C: Clock, R: Read>(clock: &C, input: &mut R, bytes: &mut [u8]) -> usize
    ensures { IsPrefixLen result bytes.new }
{
    let mut done = 0;
    let mut pauses = MOST_PAUSES;
    while done < bytes.len() {
        match input.read(&mut bytes[done..]) {
            Ok(0) => break,
            Ok(count) => {
                done += count;
                pauses = MOST_PAUSES;
            }
            Err(error) => match pause(clock, error, pauses) {
                Ok(left) => pauses = left,
                Err(_) => return 0,
            },
        }
    }
    done
}

// ---- writing

// An error where some of the text is not written.
fn write_to_end<P: Clock + Print>(output: &P, text: &[u8]) -> std::io::Result<()> {
    let mut rest = text;
    let mut pauses = MOST_PAUSES;
    while !rest.is_empty() {
        match output.write_some(rest) {
            Ok(0) => return Err(Error::from(ErrorKind::WriteZero)),
            Ok(taken) => {
                rest = &rest[taken..];
                pauses = MOST_PAUSES;
            }
            Err(error) => pauses = pause(output, error, pauses)?,
        }
    }
    Ok(())
}

// A line on standard error: what failed, and the error.
fn tell<E: Print>(errors: &E, what: &[u8], error: Error) -> std::io::Result<()> {
    let mut memory = [0u8; 256];
    errors.write_all(what)?;
    errors.write_all(b": ")?;
    errors.write_all(reason::text_of(error, &mut memory))?;
    errors.write_all(b"\n")
}

// Writes the text to standard output. Where that can't be done to its end, a line on standard error says so: `what`, and the error.
pub fn print<P: Clock + Print, E: Print>(output: &P, errors: &E, text: &[u8], what: &[u8]) {
    if let Err(error) = write_to_end(output, text) {
        // Where standard error takes nothing either, there is nobody left to tell.
        let _ = tell(errors, what, error);
    }
}

// ---- arguments

// The programs take no arguments: where there is one, the usage is written to standard error, and the answer is true.
pub fn refuse_arguments<V: Env, E: Print>(arguments: &V, errors: &E, usage: &[u8]) -> bool {
    // An argument that is longer than these bytes is one all the same.
    let mut first = [0u8; 1];
    if let Err(FillError::NotPresent) = arguments.arg(1, &mut first) {
        return false;
    }
    let _ = errors.write_all(usage);
    true
}
