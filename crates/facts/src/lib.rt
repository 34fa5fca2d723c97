// The facts of a state as data, where its words say each, and whether it stands.
#![tactic(auto)]

ghost use Rattle.std.specs.Prelude.{◌≡◌, [], ◌∷◌, true};
ghost use Rattle.mtas.specs.Fact.{above_15};
ghost use Rattle.mtas.specs.State.{user_of};
ghost use Rattle.mtas.specs.Layout.{view};
ghost use Rattle.mtas.specs.LawTest.{lawful_words};
ghost use Rattle.facts.specs.Table.{fact_of, unless, place_of, says_at, Inside};

use layout::State;

// The words of a lawful state, lent.
#[derive(Clone, Copy)]
pub struct Lawful<'a> {
    pub words: &'a State,
    pub ghost lawful: { lawful_words words.now ≡ true },
}

// Users have sixteen bits, since a closed session's is 65535.
#[derive(Clone, Copy)]
pub enum Fact {
    Enrolled(u8),
    Trusts(u8, u8),
    User(u8, u8),
    Role(u8, u8),
    Permission(u8, u8),
    Public(u8, u8),
    Holds(u8, u16, u8),
    Granted(u8, u8, u8, u8),
    Attached(u8, u8, u8, u8),
    Opened(u8, u8, u16),
    Active(u8, u8, u16, u8),
}

// Where a fact is said: a bit of a word; a word that is a number; a bit of the second word while the first is a number.
#[derive(Clone, Copy)]
pub enum Place {
    Bit(usize, u8),
    Number(usize, u16),
    While(usize, u16, usize, u8),
}

// Whether a number is above 15.
pub fn above_15(a: u8, b: u8, c: u16, d: u8) -> bool
    ensures { result ≡ above_15 (a ∷ b ∷ c ∷ d ∷ []) }
{
    16 <= a || 16 <= b || 16 <= c || 16 <= d
}

// The place, or none where a number is above 15.
fn unless_above(a: u8, b: u8, c: u16, d: u8, place: Place) -> Option<Place>
    ensures { result ≡ unless (above_15 (a ∷ b ∷ c ∷ d ∷ [])) place }
{
    (!above_15(a, b, c, d)).then_some(place)
}

// A fact with a number above 15 is said nowhere.
#[tactic(auto, unfolding(crate::specs::Table::place_of))]
pub fn place_of(fact: Fact) -> Option<Place>
    ensures { result ≡ place_of (fact_of fact) }
{
    match fact {
        Fact::Enrolled(i) => unless_above(i, 0, 0, 0, Place::Bit(0, i)),
        Fact::Trusts(i, j) => unless_above(i, j, 0, 0, Place::Bit(layout::trusted(i), j)),
        Fact::User(i, u) => unless_above(i, u, 0, 0, Place::Bit(layout::users(i), u)),
        Fact::Role(i, r) => unless_above(i, r, 0, 0, Place::Bit(layout::roles(i), r)),
        Fact::Permission(i, p) => unless_above(i, p, 0, 0, Place::Bit(layout::permissions(i), p)),
        Fact::Public(i, r) => unless_above(i, r, 0, 0, Place::Bit(layout::public_roles(i), r)),
        Fact::Holds(i, u, r) => unless_above(i, 0, u, r, Place::Bit(layout::held(i, u), r)),
        Fact::Granted(j, p, i, r) => {
            unless_above(j, p, i as u16, r, Place::Bit(layout::holders(j, p, i), r))
        }
        Fact::Attached(j, q, i, r) => {
            unless_above(j, q, i as u16, r, Place::Bit(layout::seniors(j, q, i), r))
        }
        Fact::Opened(i, s, u) => {
            unless_above(i, s, u, 0, Place::Number(layout::session_user(i, s), u))
        }
        Fact::Active(i, s, u, r) => unless_above(
            i,
            s,
            u,
            r,
            Place::While(layout::session_user(i, s), u, layout::active_roles(i, s), r),
        ),
    }
}

// Whether the words say what is said at a place.
fn says_at(state: &State, place: Place) -> bool
    requires { Inside place }
    ensures { result ≡ says_at state.now place }
{
    match place {
        Place::Bit(at, n) => bits::has_bit(state[at], n),
        Place::Number(at, u) => state[at] == u,
        Place::While(at, u, word, n) => state[at] == u && bits::has_bit(state[word], n),
    }
}

pub fn stands(state: &State, fact: Fact) -> bool
    ensures { result ≡ (view state.now).stands (fact_of fact) }
{
    match place_of(fact) {
        Some(place) => says_at(state, place),
        None => false,
    }
}

// The user of the session i/s, or 65535 where it is closed: a number, as in the state's word and in the model, by which guards ask for it.
pub fn user_of(state: Lawful, i: u8, s: u8) -> u16
    ensures { result ≡ user_of (view state.entry.words.now) i s }
{
    if above_15(i, s, 0, 0) {
        return layout::NOBODY;
    }
    state.words[layout::session_user(i, s)]
}
