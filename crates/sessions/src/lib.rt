// The active roles of sessions: those that no role held by the session's user reaches (document 02, Card 2), and settling, which drops them.
#![tactic(auto)]

ghost use Rattle.std.specs.Prelude.{◌≡◌, ◌↔◌, true, ◌<◌};
ghost use Rattle.bits.specs.Gather.{gather};
ghost use Rattle.mtas.specs.Law.{attachments};
ghost use Rattle.mtas.specs.Settle.{authorized};
ghost use Rattle.mtas.specs.Layout.{view};
ghost use Rattle.sessions.specs.Lesser.{awake, stranger, lesser, IsLesser, Over, holds_one, Spared, Beyond, IssuerInOrder, InOrder};
ghost use Rattle.sessions.specs.Settled.{Dropped, Settled};

use layout::State;
use std::array;

// The bits of i's sessions that are not those of a closed one: none where all of them are closed.
// A state and an issuer's number stand side by side, here and below: a struct of the two would be made anew for each issuer at every call.
#[tactic(auto, unfolding(bits::specs::Gather::gather))]
pub fn awake(state: &State, i: usize) -> u16
    requires { i < 16 }
    ensures { result ≡ gather 16 (awake state.now i) }
{
    let mut found = 0;
    for s in 0..16 {
        let at = layout::SESSIONS_AT + 2 * (16 * i + s);
        found |= !state[at] | state[at + 1];
    }
    found
}

// 1 where the user of i/s is neither nobody nor one that is present: a number, since the law test ors it into a word.
#[tactic(auto, unfolding(crate::specs::Lesser::stranger))]
pub fn stranger(state: &State, i: usize, s: usize) -> u16
    requires { (i < 16) × (s < 16) }
    ensures { result ≡ stranger state.now i s }
{
    let user = state[layout::SESSIONS_AT + 2 * (16 * i + s)];
    let known = if user < 16 {
        bits::has_bit(state[layout::USERS_AT + i], user as u8)
    } else {
        user == layout::NOBODY
    };
    u16::from(!known)
}

// The active roles of i/s that its user doesn't hold.
#[tactic(auto, unfolding(crate::specs::Lesser::lesser))]
pub fn lesser(state: &State, i: usize, s: usize) -> u16
    requires { (i < 16) × (s < 16) }
    ensures { result ≡ lesser state.now i s }
{
    let at = layout::SESSIONS_AT + 2 * (16 * i + s);
    let user = state[at];
    let active = state[at + 1];
    if user < 16 {
        active & !state[layout::HELD_AT + 16 * i + user as usize]
    } else {
        active
    }
}

// Roles of one issuer, a word for each of its sessions.
type BySession = [u16; 16];

// The active roles of i's sessions that their users don't hold.
fn lesser_of(state: &State, i: usize) -> BySession
    requires { i < 16 }
    ensures { IsLesser state.now i result }
{
    array::from_fn(|s| lesser(state, i, s))
}

// The roles of i that reach i#r.
fn over(state: &State, i: usize, r: u8) -> u16
    requires { (i < 16) × (r < 16) }
    ensures { Over state.now i r result }
{
    hierarchy::above_one(layout::links(state), i, r).words[i]
}

// Whether i@u holds one of these roles. Nobody has a number above 15.
fn holds_one(state: &State, i: usize, u: u16, roles: u16) -> bool
    requires { i < 16 }
    ensures { result ≡ holds_one state.now i u roles }
{
    u < 16 && state[layout::HELD_AT + 16 * i + u as usize] & roles != 0
}

// Whether a role that i@u holds reaches i#r. There is no walk where i@u holds i#r itself.
#[tactic(auto, using(crate::proofs::Reached::none_above, crate::proofs::Reached::itself_held, crate::proofs::Reached::one_held))]
pub fn is_authorized(state: &State, i: u8, u: u16, r: u8) -> bool
    ensures { result ≡ authorized (view state.now) (attachments (view state.now)) i u r }
{
    i < 16
        && r < 16
        && (holds_one(state, i as usize, u, bits::with_bit(0, r))
            || holds_one(state, i as usize, u, over(state, i as usize, r)))
}

// What is left without i#r in the sessions of i whose users hold one of the roles above it.
fn spare(state: &State, i: usize, r: u8, above: u16, left: &mut BySession)
    requires { (i < 16) × (r < 16) }
    ensures { Spared state.now i r above left.old left.new }
{
    for (s, w) in left.iter_mut().enumerate() {
        let user = state[layout::SESSIONS_AT + 2 * (16 * i + s)];
        if holds_one(state, i, user, above) {
            *w = bits::without_bit(*w, r);
        }
    }
}

// The active roles of i's sessions that no role held by their users reaches.
// There is one walk for each role that some session has active and its user doesn't hold.
fn beyond(state: &State, i: usize) -> BySession
    requires { i < 16 }
    ensures { Beyond state.now i result }
{
    let mut left = lesser_of(state, i);
    let mut rest = left.iter().fold(0, |all, w| all | w);
    while rest != 0 {
        let r = bits::lowest_bit(rest);
        spare(state, i, r, over(state, i, r), &mut left);
        rest = bits::without_bit(rest, r);
    }
    left
}

// Whether each user of i's sessions is nobody or present, and each of their active roles reached by one that this user holds.
fn issuer_in_order(state: &State, i: usize) -> bool
    requires { i < 16 }
    ensures { (result ≡ true) ↔ IssuerInOrder state.now i }
{
    (0..16).all(|s| stranger(state, i, s) == 0) && beyond(state, i).iter().all(|w| *w == 0)
}

// The same of all issuers.
pub fn in_order(state: &State) -> bool
    ensures { (result ≡ true) ↔ InOrder state.now }
{
    (0..16).all(|i| issuer_in_order(state, i))
}

// The sessions of i lose these active roles.
fn drop_roles(state: &mut State, i: usize, gone: &BySession)
    requires { i < 16 }
    ensures { Dropped i gone.now 16 state.old state.new }
{
    for (s, w) in gone.iter().enumerate() {
        state[layout::SESSIONS_AT + 2 * (16 * i + s) + 1] &= !w;
    }
}

// Every session loses the active roles that no role held by its user reaches.
pub fn settle(state: &mut State)
    ensures { Settled state.old state.new }
{
    for i in 0..16 {
        if awake(state, i) != 0 {
            let gone = beyond(state, i);
            drop_roles(state, i, &gone);
        }
    }
}
