// Walks in the attachment words of the lent state: refusal 13, and the lookup of kind 21.
ghost use Rattle.std.specs.Prelude.{◌≡◌};
ghost use Rattle.mtas.specs.Hierarchy.{◌#◌, reaches};
ghost use Rattle.mtas.specs.Law.{attachments};
ghost use Rattle.mtas.specs.Answer.{lookup};
ghost use Rattle.mtas.specs.Layout.{view};
ghost use Rattle.hierarchy.specs.Lowest.{found_of};

use bits::RoleSet;
use facts::Lawful;
use hierarchy::Role;

// Whether j#q reaches i#r. Where a number is above 15, no role but itself does.
pub fn reaches(state: Lawful, j: u8, q: u8, i: u8, r: u8) -> bool
    ensures { result ≡ reaches (attachments (view state.entry.words.now)) (j # q) (i # r) }
{
    if facts::above_15(j, q, i as u16, r) {
        return j == i && q == r;
    }
    let links = layout::links(state.words);
    hierarchy::above_one(links, i as usize, r).has(j as usize, q)
}

// The lowest role that holds the permission j%p and that an active role of the session i/s reaches.
pub fn lookup(state: Lawful, j: u8, p: u8, i: u8, s: u8) -> Option<Role>
    ensures { found_of result ≡ lookup (view state.entry.words.now) j p i s }
{
    if facts::above_15(j, p, i as u16, s) {
        return None;
    }
    let words = state.words;
    let active = words[layout::active_roles(i, s)];
    if active == 0 {
        return None;
    }
    let holders = RoleSet::row(words, layout::holders(j, p, 0));
    let links = layout::links(words);
    hierarchy::lowest_reached(links, holders, i as usize, active)
}
