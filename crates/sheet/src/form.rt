// The words of a sheet's rows, and their numbers.
ghost use Rattle.std.specs.Prelude.{◌≡◌};
ghost use Rattle.sheet.specs.Found.{Names, NumberIs};
ghost use Rattle.sheet.specs.Caller.{all_digits, is_decimal};

// The kind of a word's call, a number as the card's table of words and the record have it, and the number of its arguments.
#[derive(Clone, Copy)]
pub struct Named {
    pub kind: u16,
    pub count: usize,
}

// What a text is the word of.
#[tactic(auto, using(crate::proofs::Words::no_word))]
pub fn call_named(text: &[u8]) -> Option<Named>
    ensures { Names text.now result }
{
    match text {
        b"user" => Some(Named { kind: 5, count: 1 }),
        b"role" => Some(Named { kind: 7, count: 1 }),
        b"perm" => Some(Named { kind: 9, count: 1 }),
        b"trust" => Some(Named { kind: 3, count: 1 }),
        b"give" => Some(Named { kind: 11, count: 2 }),
        b"grant" => Some(Named { kind: 13, count: 3 }),
        b"attach" => Some(Named { kind: 15, count: 3 }),
        _ => None,
    }
}

// The number 0 to 15 that a text spells.
#[tactic(auto, unfolding(crate::specs::Reading::number))]
pub fn number(text: &[u8]) -> Option<u8>
    ensures { NumberIs text.now result }
{
    match text {
        [x @ b'0'..=b'9'] => Some(*x - b'0'),
        [b'1', x @ b'0'..=b'5'] => Some(10 + (*x - b'0')),
        _ => None,
    }
}

// Whether a text is digits alone.
fn all_digits(text: &[u8]) -> bool
    ensures { result ≡ all_digits text.now }
{
    text.iter().all(|x| matches!(x, b'0'..=b'9'))
}

// Whether a text is a number in decimal, without leading zeros.
#[tactic(auto, unfolding(crate::specs::Caller::is_decimal))]
pub fn decimal(text: &[u8]) -> bool
    ensures { result ≡ is_decimal text.now }
{
    match text {
        [] | [b'0', _, ..] => false,
        _ => all_digits(text),
    }
}
