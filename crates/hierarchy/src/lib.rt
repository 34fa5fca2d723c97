// The role hierarchy: the roles that reach one of a set, and whether no role reaches itself by one or more attachments.
// A role's row of the attachment words is the set of its direct seniors, so both walk upwards, a row at a time.
#![tactic(auto)]

ghost use Rattle.std.specs.Prelude.{◌<◌};
ghost use Rattle.hierarchy.specs.Links.{linked, Reaching, ReachingOne};
ghost use Rattle.hierarchy.specs.Climbing.{Climbing};

use bits::RoleSet;
use layout::Links;

mod circles;
mod lowest;

pub use circles::acyclic;
pub use lowest::{Role, lowest_reached};

// A climb: the roles seen, and those whose direct seniors are seen too.
#[derive(Clone, Copy)]
struct Climb {
    seen: RoleSet,
    done: RoleSet,
}

// A climb goes on until the direct seniors of all that it has seen are seen too: in rounds, issuer by issuer, and of each issuer also those that come so.
// The loops stand in one function, so that the sets aren't copied from one to another for each role.
fn finish(links: &Links, from: Climb) -> RoleSet
    requires { Climbing (linked links.now) from.seen.words from.seen.words from.done.words }
    ensures { Reaching (linked links.now) from.seen.words result.words }
{
    let mut seen = from.seen;
    let mut done = from.done;
    while bits::gather_row(&seen.words, 0, done) != 0 {
        for i in 0..16 {
            let d = done.words[i];
            let s = seen.words[i];
            let mut rest = s & !d;
            if rest != 0 {
                while rest != 0 {
                    let r = bits::lowest_bit(rest);
                    let row = RoleSet::row(links, 16 * (16 * i + r as usize));
                    let above = row.words[i];
                    let known = seen.words[i];
                    seen = seen.union(row);
                    rest = bits::without_bit(rest, r) | (above & !known);
                }
                let lifted = seen.words[i];
                done.words[i] = d | lifted;
            }
        }
    }
    seen
}

// The roles that reach one of a set.
fn above(links: &Links, set: RoleSet) -> RoleSet
    ensures { Reaching (linked links.now) set.words result.words }
{
    finish(
        links,
        Climb {
            seen: set,
            done: RoleSet::empty(),
        },
    )
}

// The roles that reach i#r.
pub fn above_one(links: &Links, i: usize, r: u8) -> RoleSet
    requires { (i < 16) × (r < 16) }
    ensures { ReachingOne (linked links.now) i r result.words }
{
    above(links, RoleSet::empty().add(i, r))
}
