// An order in which to visit roles. It is a hint: a good one makes the acyclicity test quick, and any one leaves its answer right.
#![tactic(auto)]

ghost use Rattle.std.specs.Prelude.{◌≡◌, ◌<◌, ◌≤◌, take, IfSome};

use bits::RoleSet;
use layout::Links;

// Roles one after the other, 16 i + r for role r of issuer i: the first count of a fixed array, since there is no heap.
#[derive(Clone, Copy)]
pub struct Order {
    roles: [u8; 256],
    count: usize,
    ghost fits: { count ≤ 256 },
}

impl Order {
    pub fn as_slice(&self) -> &[u8]
        ensures { result.now ≡ take self.now.count self.now.roles }
    {
        &self.roles[..self.count]
    }
}

// Four words as one number, the first one lowest.
fn wide(words: &[u16]) -> u64 {
    words.iter().rev().fold(0, |all, w| all << 16 | *w as u64)
}

// The first role of a set. With `position` in place of the loop the search takes a quarter longer, and on some states twice as long.
fn first(set: &[u64; 4]) -> Option<usize>
    ensures { IfSome result (λ role. role < 256) }
{
    for (n, w) in set.iter().enumerate() {
        if *w != 0 {
            return Some(64 * n + w.trailing_zeros() as usize);
        }
    }
    None
}

// The first direct senior of a role that is left.
fn first_senior(links: &Links, role: usize, left: &[u64; 4]) -> Option<usize>
    requires { role < 256 }
    ensures { IfSome result (λ senior. senior < 256) }
{
    let mut seniors = *left;
    let row = &links[16 * role..16 * role + 16];
    for (s, words) in seniors.iter_mut().zip(row.chunks_exact(4)) {
        *s &= wide(words);
    }
    first(&seniors)
}

// The roles outside a set, seniors before juniors where there is such an order: a search in depth, from junior to senior.
// Without a circle no role is on the path twice, or both there and in the order; on one the path grows until the two have 256, and the search ends.
// The path is a fixed array with a depth, since there is no heap. Nothing is promised of the roles, since any order is right.
pub fn search(links: &Links, tops: RoleSet) -> Order {
    let mut left = [0u64; 4];
    for (l, words) in left.iter_mut().zip(tops.words.chunks_exact(4)) {
        *l = !wide(words);
    }
    let mut roles = [0u8; 256];
    let mut count = 0;
    let mut path = [0u8; 256];
    let mut depth = 0;
    let mut next = first(&left);
    while let Some(role) = next {
        if depth + count == 256 {
            break;
        }
        next = first_senior(links, role, &left);
        if next.is_some() {
            path[depth] = role as u8;
            depth += 1;
        } else {
            left[role / 64] &= !(1 << (role % 64));
            roles[count] = role as u8;
            count += 1;
            if depth == 0 {
                next = first(&left);
            } else {
                depth -= 1;
                next = Some(path[depth] as usize);
            }
        }
    }
    Order { roles, count }
}
