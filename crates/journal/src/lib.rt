// The journal reader: a journal is records end to end, and each is handed back as a part of the journal's own bytes.
#![tactic(auto, unfolding(mtas::specs::Journal::first_of))]

ghost use Rattle.std.specs.Prelude.{◌≡◌, ◌+◌, ◌≤◌, length, take, drop};
ghost use Rattle.mtas.specs.Record.{kind_of, caller_of};
ghost use Rattle.mtas.specs.Journal.{first_of};
ghost use Rattle.journal.specs.Found.{found_of, Inside};

// What the bytes from a place on begin with: nothing, a whole record of so many bytes, or one that is not whole. Three cases, and each has
// its own line in the player's text, so that neither an Option nor a Result says it.
#[derive(Clone, Copy)]
pub enum Found {
    NoMore,
    Whole(usize),
    Partial,
}

// What the journal has from a byte place on. A place past the end has no more.
pub fn first_of(journal: &[u8], at: usize) -> Found
    ensures result_value { found_of result ≡ first_of (drop at journal.now) }
    ensures inside { Inside journal.now at result }
{
    match journal.get(at..) {
        None | Some([]) => Found::NoMore,
        Some([low, high, rest @ ..]) => {
            let len = u16::from_le_bytes([*low, *high]) as usize;
            if len >= 5 && len <= rest.len() + 2 {
                Found::Whole(len)
            } else {
                Found::Partial
            }
        }
        Some(_) => Found::Partial,
    }
}

// The record of len bytes at a place.
pub fn part(journal: &[u8], at: usize, len: usize) -> &[u8]
    requires { at + len ≤ length journal.now }
    ensures { result.now ≡ take len (drop at journal.now) }
{
    &journal[at..at + len]
}

// A record's kind, with 0 for a byte that is missing.
pub fn kind_of(record: &[u8]) -> u16
    ensures { result ≡ kind_of «record».now }
{
    bits::two_bytes(bits::byte_at(record, 2), bits::byte_at(record, 3))
}

// A record's caller, or 0 where the byte is missing.
pub fn caller_of(record: &[u8]) -> u8
    ensures { result ≡ caller_of «record».now }
{
    bits::byte_at(record, 4)
}
