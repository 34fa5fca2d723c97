// What happens to sessions where a fact is cut: some close, or lose a role.
#![tactic(auto)]

ghost use Rattle.std.specs.Prelude.{◌≡◌, ◌+◌, ◌<◌, ◌≤◌};
ghost use Rattle.facts.specs.Table.{fact_of};
ghost use Rattle.effects.specs.Sweeps.{closing, dropping, IsSweep, meant, swept_words, Swept};

use crate::strips::all_but;
use facts::Fact;
use layout::State;

// The sessions from the first on, of one user or of anyone, keep these roles, or close where none are said.
// Session i/s is the one numbered 16 * i + s. No Range: it can't be copied, and each use of it would be a clone.
#[derive(Clone, Copy)]
pub struct Sweep {
    first: usize,
    count: usize,
    user: Option<u16>,
    keep: Option<u16>,
}

fn closing(first: usize, count: usize, user: Option<u16>) -> Sweep
    ensures { result ≡ closing first count user }
{
    Sweep {
        first,
        count,
        user,
        keep: None,
    }
}

fn dropping(first: usize, count: usize, user: Option<u16>, role: u8) -> Sweep
    ensures { result ≡ dropping first count user role }
{
    Sweep {
        first,
        count,
        user,
        keep: Some(all_but(role)),
    }
}

// What a fact and all that needs it are to sessions.
pub fn sweep_of(fact: Fact) -> Option<Sweep>
    ensures { IsSweep (fact_of fact) result }
{
    match fact {
        Fact::Enrolled(i) => Some(closing(16 * (i as usize), 16, None)),
        Fact::User(i, u) => Some(closing(16 * (i as usize), 16, Some(u as u16))),
        Fact::Role(i, r) => Some(dropping(16 * (i as usize), 16, None, r)),
        Fact::Opened(i, s, u) => Some(closing(16 * (i as usize) + s as usize, 1, Some(u))),
        Fact::Active(i, s, u, r) => {
            Some(dropping(16 * (i as usize) + s as usize, 1, Some(u), r))
        }
        Fact::Trusts(..)
        | Fact::Permission(..)
        | Fact::Public(..)
        | Fact::Holds(..)
        | Fact::Granted(..)
        | Fact::Attached(..) => None,
    }
}

impl Sweep {
    // Whether a session of this user is one of the sweep's.
    fn is_meant(self, user: u16) -> bool
        ensures { result ≡ meant self user }
    {
        self.user.is_none_or(|u| user == u)
    }

    // The session numbered m.
    fn sweep_one(self, state: &mut State, m: usize)
        requires { m < 256 }
        ensures { state.new ≡ swept_words self m state.old }
    {
        let at = layout::SESSIONS_AT + 2 * m;
        if self.is_meant(state[at]) {
            match self.keep {
                Some(keep) => state[at + 1] &= keep,
                None => {
                    state[at] = layout::NOBODY;
                    state[at + 1] = 0;
                }
            }
        }
    }

    pub fn sweep_all(self, state: &mut State)
        requires { self.first + self.count ≤ 256 }
        ensures { Swept self self.count state.old state.new }
    {
        for m in self.first..self.first + self.count {
            self.sweep_one(state, m);
        }
    }
}
