// A row of a sheet in front of bytes: its word, its arguments and its end.
ghost use Rattle.std.specs.Prelude.{◌≤◌};
ghost use Rattle.sheet.specs.Found.{ArgumentIs, ArgumentsAre, EndIs, RowIs};

use crate::{csv, form};
use form::Named;
use record::Slots;

const CR: u8 = 13;

const LF: u8 = 10;

// The comma in front and the number behind it: the number, and the place behind it.
fn read_argument(left: &[u8]) -> Option<(u8, usize)>
    ensures { ArgumentIs left.now result }
{
    if bits::byte_at(left, 0) != csv::COMMA {
        return None;
    }
    let behind = &left[1..];
    let f = csv::read_field(behind);
    let n = form::number(&behind[f.from..f.to])?;
    Some((n, 1 + f.next))
}

// So many arguments in front, and the place behind them.
fn read_arguments(left: &[u8], count: usize) -> Option<(Slots, usize)>
    requires { count ≤ 3 }
    ensures { ArgumentsAre count left.now result }
{
    let mut numbers = [0u8; 3];
    let mut at = 0;
    for number in &mut numbers[..count] {
        let (n, next) = read_argument(&left[at..])?;
        *number = n;
        at += next;
    }
    let [x, y, z] = numbers;
    Some((Slots { x, y, z }, at))
}

// The row's end in front, the sheet's end or CR and LF: the place behind it.
#[tactic(auto, unfolding(crate::specs::Reading::ended))]
fn read_end(left: &[u8]) -> Option<usize>
    ensures { EndIs left.now result }
{
    match left {
        [] => Some(0),
        [CR, LF, ..] => Some(2),
        _ => None,
    }
}

// A row's call: its kind, the number of its arguments, and these.
#[derive(Clone, Copy)]
pub struct Call {
    pub kind: u16,
    pub count: usize,
    pub slots: Slots,
}

// The row in front: its call, and the place behind it.
pub fn read_row(left: &[u8]) -> Option<(Call, usize)>
    ensures { RowIs left.now result }
{
    let f = csv::read_field(left);
    let Named { kind, count } = form::call_named(&left[f.from..f.to])?;
    let behind = &left[f.next..];
    let (slots, at) = read_arguments(behind, count)?;
    let n = read_end(&behind[at..])?;
    let call = Call { kind, count, slots };
    Some((call, f.next + at + n))
}
