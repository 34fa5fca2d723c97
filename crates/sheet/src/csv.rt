// A field of CSV, as RFC 4180 has it, in front of bytes.
ghost use Rattle.std.specs.Prelude.{◌≡◌, length};
ghost use Rattle.std.specs.List.{take_while};
ghost use Rattle.sheet.specs.Rfc4180.{textdata};
ghost use Rattle.sheet.specs.Found.{FieldIs};

pub const COMMA: u8 = 44;

const DQUOTE: u8 = 34;

// Whether a byte is TEXTDATA.
#[tactic(auto, unfolding(crate::specs::Rfc4180::textdata))]
fn textdata(x: u8) -> bool
    ensures { result ≡ textdata x }
{
    matches!(x, 32..=126) && x != DQUOTE && x != COMMA
}

// How many bytes of TEXTDATA there are in front.
fn text_length(left: &[u8]) -> usize
    ensures { result ≡ length (take_while textdata left.now) }
{
    left.iter().take_while(|x| textdata(**x)).count()
}

// Places and no slices: with slices the proof of `read_field` didn't close.
// Where a field's text lies, and the place behind the field. One whose text isn't TEXTDATA alone, or that no quote closes, has an empty text here: neither is a word or a number.
#[derive(Clone, Copy)]
pub struct Field {
    pub from: usize,
    pub to: usize,
    pub next: usize,
}

// The field in front.
pub fn read_field(left: &[u8]) -> Field
    ensures { FieldIs left.now result }
{
    if bits::byte_at(left, 0) != DQUOTE {
        let to = text_length(left);
        return Field {
            from: 0,
            to,
            next: to,
        };
    }
    let to = 1 + text_length(&left[1..]);
    if bits::byte_at(left, to) == DQUOTE {
        if bits::byte_at(left, to + 1) != DQUOTE {
            return Field {
                from: 1,
                to,
                next: to + 1,
            };
        }
    }
    Field {
        from: 0,
        to: 0,
        next: 0,
    }
}
