// The sheet program: makes records of the sheet on standard input, for the caller that its one argument names, on standard output.
// Where it can't, it writes one line to standard error and nothing to standard output, but for records whose writing failed midway.
#![tactic(auto)]

ghost use Rattle.std.specs.Prelude.{◌≤◌, length, IfSome};

use sheet::Answer;
use std::env::{Env, FillError};
use std::io::Read;

// Complains of a line that can't be written either to nobody.
fn complain(errors: &impl Print, line: &[u8]) {
    let _ = errors.write_all(line);
}

// How many bytes at the start of the buffer are the program's argument; none where it has no argument, or more than one.
// One that has no room in the buffer is told as no bytes, since no bytes name a caller either.
fn only_argument(rt: &impl Env, text: &mut [u8]) -> Option<usize>
    ensures { IfSome result (λ len. len ≤ length text.new) }
{
    if is_given(rt, 2) {
        return None;
    }
    match rt.arg(1, text) {
        Ok(len) => Some(len),
        Err(FillError::TooLong) => Some(0),
        Err(FillError::NotPresent) => None,
    }
}

// Whether the program was given an argument of that number, the first being 1.
fn is_given(rt: &impl Env, number: usize) -> bool {
    !matches!(rt.arg(number, &mut []), Err(FillError::NotPresent))
}

// Makes the records of a sheet, and writes them or the error and its line.
fn convert(out: &impl Print, errors: &impl Print, csv: &[u8], caller: u8)
    requires { length csv.now ≤ 262144 }
{
    let mut records = [0u8; 65536];
    let converted = sheet::convert(csv, caller, &mut records);
    let Ok(bytes) = converted else {
        let answer = Answer::from(converted);
        let line = lines::wrong(answer.error, answer.line as u32);
        complain(errors, line.as_slice());
        return;
    };
    if out.write_all(&records[..bytes]).is_err() {
        complain(errors, b"sheet: not all records could be written\n");
    }
}

// Whether the input has come to its end: a read that fails isn't one.
fn at_the_end<R: Read>(input: &mut R) -> bool {
    let mut more = [0u8; 1];
    matches!(input.read(&mut more), Ok(0))
}

// One byte more than the limit is read: then the sheet is too long, whatever follows.
fn main(rt: HostRuntime) {
    let errors = rt.stderr();
    let mut text = [0u8; 32];
    let mut csv = [0u8; 262145];
    let Some(len) = only_argument(&rt, &mut text) else {
        complain(
            &errors,
            b"sheet: one argument is needed, the caller's number from 0 to 15\n",
        );
        return;
    };
    let Some(caller) = sheet::caller_in(&text[..len]) else {
        complain(
            &errors,
            b"sheet: the argument must be the caller's number, from 0 to 15, without leading zeros\n",
        );
        return;
    };
    let size = input::fill(&mut rt.stdin(), &mut csv).size;
    if size > 262144 {
        complain(&errors, b"sheet: the sheet is longer than 262144 bytes\n");
        return;
    }
    if !at_the_end(&mut rt.stdin()) {
        complain(&errors, b"sheet: the sheet could not be read\n");
        return;
    }
    convert(&rt, &errors, &csv[..size], caller);
}
