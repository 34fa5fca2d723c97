// An estate's sheet, CSV as RFC 4180 has it, made into call records for one caller.
#![tactic(auto)]

ghost use Rattle.std.specs.Prelude.{◌≡◌, ℕ, ◌≤◌, length};
ghost use Rattle.sheet.specs.Reading.{rows};
ghost use Rattle.sheet.specs.Caller.{caller_in, named_of};
ghost use Rattle.sheet.specs.Converted.{converted, over};
ghost use Rattle.sheet.specs.Found.{Converts, Tells, answer_of, size_of, records_in, Fitting};

mod csv;
mod form;
mod reading;

// Why nothing was converted.
#[derive(Clone, Copy, Debug, PartialEq, Eq)]
pub enum Error {
    // The caller is above 15.
    Caller,
    // The first row that isn't of the form stands in this line.
    Line(usize),
    // The buffer is shorter than the records.
    NoRoom,
}

// How many bytes a sheet's records have, where each row is of the form. Here and in `write` the loop goes by the rows' places: a row says
// where it ends when it is read, and an iterator of rows would be one more type with this loop's facts in it.
fn size_of(csv: &[u8]) -> Result<usize, Error>
    ensures { (caller : ℕ) → result ≡ size_of caller (rows csv.now) }
{
    let mut bytes = 0;
    let mut at = 0;
    let mut line = 1;
    while at < csv.len() {
        let Some((call, next)) = reading::read_row(&csv[at..]) else {
            return Err(Error::Line(line));
        };
        bytes += record::HEADER + call.count;
        at += next;
        line += 1;
    }
    Ok(bytes)
}

// Writes the records of a good sheet, which have room.
fn write(csv: &[u8], caller: u8, out: &mut [u8])
    requires { Fitting caller csv.now (length out.old) }
    ensures { out.new ≡ over (records_in caller (rows csv.now)) out.old }
{
    let mut at = 0;
    let mut used = 0;
    while at < csv.len() {
        let (call, next) = reading::read_row(&csv[at..]).unwrap();
        let made = record::record_of(call.kind, caller, call.count, call.slots);
        let end = used + made.len;
        out[used..end].copy_from_slice(made.as_slice());
        used = end;
        at += next;
    }
}

// Makes the records of any sheet for any caller, in a buffer of any length, and answers how many bytes they have.
pub fn convert(csv: &[u8], caller: u8, out: &mut [u8]) -> Result<usize, Error>
    ensures converts { Converts (converted csv.now caller out.old) (answer_of result) out.new }
    ensures line_in_bounds { ((answer_of result).line ≤ length csv.now) × ((answer_of result).bytes ≤ length out.old) }
{
    if caller > 15 {
        return Err(Error::Caller);
    }
    let bytes = size_of(csv)?;
    if out.len() < bytes {
        return Err(Error::NoRoom);
    }
    write(csv, caller, out);
    Ok(bytes)
}

// What was converted, in three numbers: error 0 and the bytes written, error 15 and the line, 0 for a caller above 15, or error 16.
#[derive(Clone, Copy)]
pub struct Answer {
    pub error: u16,
    pub line: usize,
    pub bytes: usize,
}

impl From<Result<usize, Error>> for Answer {
    ghost from_gives = { λ r a. Tells a (answer_of r) };

    fn from(converted: Result<usize, Error>) -> Answer {
        let (error, line, bytes) = match converted {
            Ok(bytes) => (0, 0, bytes),
            Err(Error::Caller) => (15, 0, 0),
            Err(Error::Line(line)) => (15, line, 0),
            Err(Error::NoRoom) => (16, 0, 0),
        };
        Answer { error, line, bytes }
    }
}

// The caller that a program's argument names, with 16 for every number above 15: a caller's number like the others, which `convert` turns down.
pub fn caller_in(text: &[u8]) -> Option<u8>
    ensures { named_of result ≡ caller_in text.now }
{
    if form::decimal(text) {
        Some(form::number(text).unwrap_or(16))
    } else {
        None
    }
}
