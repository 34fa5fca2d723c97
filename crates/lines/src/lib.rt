// A printed line of the programs, as bytes.
// Not by `write!`: it promises its text on Ok alone and never that it is Ok, and these lines can't fail.
#![tactic(auto, unfolding(crate::specs::Text::text_of))]

ghost use Rattle.std.specs.Prelude.{◌∷◌, [], ◌++◌, ◌≤◌, ◌<◌, length};
ghost use Rattle.mtas.specs.Journal as Journal;
ghost use Rattle.lines.specs.Decimal.{decimal};
ghost use Rattle.lines.specs.Text.{text_of, error_text};
ghost use Rattle.lines.specs.Written.{Exactly};

pub use buffer::Buffer;

mod buffer;

// The line of a record that was played. Where its place has five digits at most, it has 28 bytes at most.
pub fn played(place: u32, kind: u16, caller: u8, refusal: u16, verdict: u16) -> Buffer
    ensures exactly { Exactly result (text_of (Journal.played place kind caller refusal verdict)) }
    ensures len_bound { place < 100000 → result.len ≤ 28 }
{
    Buffer::new()
        .field(place)
        .field(kind as u32)
        .field(caller as u32)
        .field(refusal as u32)
        .number(verdict as u32)
        .byte(b'\n')
}

// A word, a number and the line's end.
fn worded(word: &[u8], n: u32) -> Buffer
    requires { length word.now ≤ 53 }
    ensures { Exactly result (word.now ++ decimal n ++ (10 ∷ [])) }
{
    Buffer::new().word(word).number(n).byte(b'\n')
}

// The last line of a journal of n records.
pub fn end(n: u32) -> Buffer
    ensures { Exactly result (text_of (Journal.end n)) }
{
    worded(b"end ", n)
}

// The last line of a journal with a record that is not whole, at this byte place.
pub fn broken(at: u32) -> Buffer
    ensures { Exactly result (text_of (Journal.broken at)) }
{
    worded(b"broken ", at)
}

// The only line of a journal that is too long.
pub fn long() -> Buffer
    ensures { Exactly result (text_of Journal.long) }
{
    Buffer::new().word(b"long\n")
}

// The line of an error of the sheet program: its number, which is printed, whoever's enum it is.
pub fn wrong(error: u16, line: u32) -> Buffer
    ensures { Exactly result (error_text error line) }
{
    Buffer::new().field(error as u32).number(line).byte(b'\n')
}
