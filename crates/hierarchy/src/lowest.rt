// The lowest role of a set that one of an issuer's roles reaches: by issuer, then by number.
ghost use Rattle.std.specs.Prelude.{◌≡◌, ◌&&◌, ◌<◌};
ghost use Rattle.mtas.specs.Answer.{lowest_role};
ghost use Rattle.hierarchy.specs.Links.{linked, among};
ghost use Rattle.hierarchy.specs.Lowest.{Closed, WithAbove, reached_by, found_of};

use super::Climb;
use bits::RoleSet;
use layout::Links;

// A role, by its issuer and its number.
#[derive(Clone, Copy, Debug, PartialEq, Eq)]
pub struct Role {
    pub issuer: u8,
    pub number: u8,
}

// A set that has all that reaches one of it, with what reaches j#q.
fn with_above(links: &Links, known: RoleSet, j: usize, q: u8) -> RoleSet
    requires { (j < 16) × (q < 16) × Closed (linked links.now) known.words }
    ensures { WithAbove (linked links.now) j q known.words result.words }
{
    super::finish(
        links,
        Climb {
            seen: known.add(j, q),
            done: known,
        },
    )
}

// Of the roles of a set that a role of issuer i reaches, one of the bits of a word, the lowest.
// What reaches a lower role of the set was seen before, and none of the word's roles is among it: so no role is walked from twice.
pub fn lowest_reached(links: &Links, set: RoleSet, i: usize, word: u16) -> Option<Role>
    requires { i < 16 }
    ensures { found_of result ≡ lowest_role (λ b. among set.words b && reached_by (linked links.now) i word b) }
{
    let mut seen = RoleSet::empty();
    let mut found = None;
    'issuers: for j in 0..16 {
        let row = set.words[j];
        if row != 0 {
            for q in 0..16u8 {
                if bits::has_bit(row, q) {
                    seen = with_above(links, seen, j, q);
                    let own = seen.words[i];
                    if own & word != 0 {
                        found = Some(Role {
                            issuer: j as u8,
                            number: q,
                        });
                        break 'issuers;
                    }
                }
            }
        }
    }
    found
}
