// The monitor, the sheet's converter and the presses, each answer as one number: `packed_answer`, `packed_sheet` or a press's error.
// Crate `yermoitu_c` exports the functions to programs in C and Rust.
#![tactic(auto)]

ghost use Rattle.std.specs.Prelude.{◌≡◌};
ghost use Rattle.mtas.specs.Monitor.{start, monitor};
ghost use Rattle.monitor.specs.Contract.{answer_of};
ghost use Rattle.sheet.specs.Converted.{converted};
ghost use Rattle.sheet.specs.Found as Sheet;
ghost use Rattle.press.specs.Acted.{ends_in, act};
ghost use Rattle.yermoitu.specs.Packed.{packed_answer, Returns};
ghost use Rattle.yermoitu.specs.PackedSheet.{with_told, packed_sheet, Converts};

use monitor::{Answer, Outcome};

// The four numbers of an outcome in one. C has no enums with data, so that its functions answer a number.
fn pack(outcome: Outcome) -> u64
    ensures { result ≡ packed_answer (answer_of outcome) }
{
    let answer = Answer::from(outcome);
    answer.refusal as u64
        + 65536 * (answer.verdict as u64)
        + 4294967296 * (answer.issuer as u64)
        + 1099511627776 * (answer.role as u64)
}

// Starting: a state of any words and any length.
pub fn yermoitu_start(state: &mut [u16]) -> u64
    ensures { Returns (start state.old) result state.new }
{
    pack(monitor::start(state))
}

// A record of any bytes, played on a state of any words and any length.
pub fn yermoitu_call(state: &mut [u16], record: &[u8]) -> u64
    ensures { Returns (monitor state.old «record».now) result state.new }
{
    pack(monitor::call(state, record))
}

// An error, and what is told of it, in one number for C.
fn with_told(error: u16, told: usize) -> u64
    ensures { result ≡ with_told error told }
{
    error as u64 + 65536 * (told as u64 % 281474976710656)
}

// The line is told where the error is 15, else the bytes.
fn pack_sheet(converted: Result<usize, sheet::Error>) -> u64
    ensures { result ≡ packed_sheet (Sheet.answer_of converted).error (Sheet.answer_of converted).line (Sheet.answer_of converted).bytes }
{
    let answer = sheet::Answer::from(converted);
    if answer.error == 15 {
        return with_told(answer.error, answer.line);
    }
    with_told(answer.error, answer.bytes)
}

// A sheet of any bytes made into records for any caller, in a buffer of any length.
pub fn yermoitu_sheet(csv: &[u8], caller: u8, out: &mut [u8]) -> u64
    ensures { Converts (converted csv.now caller out.old) result out.new }
{
    pack_sheet(sheet::convert(csv, caller, out))
}

// An action on a press for the session issuer/session: lists of any bytes and any length, on a state of any words and any length.
pub fn yermoitu_press(
    state: &mut [u16],
    owners: &[u8],
    stages: &mut [u8],
    press: u8,
    action: u8,
    issuer: u8,
    session: u8,
) -> u64
    ensures { act state.old owners.now stages.old press action issuer session ≡ ends_in result stages.new state.new }
{
    match press::act(state, owners, stages, press, action, issuer, session) {
        Ok(()) => 0,
        Err(error) => u16::from(error) as u64,
    }
}
