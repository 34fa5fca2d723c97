// The law test on the words of a state (document 01, 'Lawful means').
// A stray bit is one that lacks what it needs. The stray bits of all words are gathered into one word, which is 0 where the law holds.
#![tactic(auto)]

ghost use Rattle.std.specs.Prelude.{◌≡◌, ◌↔◌, true, ◌+◌, ◌*◌, ◌<◌, ◌≤◌, length, get_or};
ghost use Rattle.mtas.specs.LawTest.{lawful_words};
ghost use Rattle.sessions.specs.Lesser.{Plain};
ghost use Rattle.law.specs.Supported.{Surveyed};
ghost use Rattle.law.specs.Stray.{only_if, own_stray, held_stray, Trusting, rows_stray, issuer_stray, issuer_doubt};

use bits::RoleSet;
use layout::State;

// w where the test holds, else no bit.
fn only_if(test: bool, w: u16) -> u16
    ensures { result ≡ only_if test w }
{
    if test { w } else { 0 }
}

// Trust only among enrolled issuers, i's in itself where i is enrolled, users, roles and permissions only there, and only present roles public.
#[tactic(auto, unfolding(crate::specs::Stray::own_stray, crate::specs::Stray::trust_stray, crate::specs::Stray::present_stray, crate::specs::Stray::public_stray))]
fn stray_own(state: &State, i: usize) -> u16
    requires { i < 16 }
    ensures { result ≡ own_stray state.now i }
{
    let n = i as u8;
    let enrolled = state[0];
    let trusted = state[layout::TRUSTED_AT + i];
    let here = bits::has_bit(enrolled, n);
    let itself = bits::with_bit(0, n);
    let all = only_if(here, u16::MAX);
    let roles = state[layout::ROLES_AT + i];
    let trust = trusted & !only_if(here, enrolled) | only_if(here, itself) & !trusted;
    let present = state[layout::USERS_AT + i] & !all
        | roles & !all
        | state[layout::PERMISSIONS_AT + i] & !all;
    let public = state[layout::PUBLIC_AT + i] & !roles;
    trust | present | public
}

// Held bits only between a present user and a present role of i.
#[tactic(auto, unfolding(bits::specs::Gather::gather, crate::specs::Stray::held_stray))]
fn stray_held(state: &State, i: usize) -> u16
    requires { i < 16 }
    ensures { result ≡ held_stray state.now i }
{
    let users = state[layout::USERS_AT + i];
    let roles = state[layout::ROLES_AT + i];
    let mut found = 0;
    for u in 0..16 {
        let allowed = only_if(bits::has_bit(users, u as u8), roles);
        found |= state[layout::HELD_AT + 16 * i + u] & !allowed;
    }
    found
}

// The roles that may hold j's permissions and be seniors of j's roles: of the issuers that trust j those public, and of j itself those present.
// j's own word is written over behind the loop: with a choice in the loop the law test was slower.
#[tactic(auto, using(crate::proofs::Allowed::own_over))]
fn trusting(state: &State, j: usize) -> RoleSet
    requires { j < 16 }
    ensures { Trusting state.now j result.words }
{
    let n = j as u8;
    let mut words = [0; 16];
    for (i, w) in words.iter_mut().enumerate() {
        *w = only_if(
            bits::has_bit(state[layout::TRUSTED_AT + i], n),
            state[layout::PUBLIC_AT + i],
        );
    }
    words[j] = only_if(
        bits::has_bit(state[layout::TRUSTED_AT + j], n),
        state[layout::ROLES_AT + j],
    );
    RoleSet { words }
}

// The sixteen rows of issuer j in the region from state[from] on: row p has only allowed roles, and none where bit p of present is not set.
// The bits of present are taken one by one, and the rows gathered side by side: so the compiler takes each row whole.
fn stray_rows(state: &State, from: usize, j: usize, present: u16, allowed: RoleSet) -> u16
    requires { from + 16 * (16 * j + 16) ≤ length state.now }
    ensures { result ≡ rows_stray state.now from j present (λ i. get_or allowed.words i 0) }
{
    let mut found = RoleSet::empty();
    let mut rest = present;
    for p in 0..16 {
        let row = if rest % 2 == 1 {
            allowed
        } else {
            RoleSet::empty()
        };
        found = bits::stray_row(state, from + 16 * (16 * j + p), row, found);
        rest /= 2;
    }
    found.gather()
}

// The stray bits of the words that the issuer i owns, but for its sessions.
#[tactic(auto, using(crate::proofs::Rows::rows_ext), unfolding(crate::specs::Stray::issuer_stray))]
fn stray_of(state: &State, i: usize) -> u16
    requires { i < 16 }
    ensures { result ≡ issuer_stray state.now i }
{
    let allowed = trusting(state, i);
    let holders = stray_rows(
        state,
        layout::HOLDERS_AT,
        i,
        state[layout::PERMISSIONS_AT + i],
        allowed,
    );
    let seniors = stray_rows(
        state,
        layout::SENIORS_AT,
        i,
        state[layout::ROLES_AT + i],
        allowed,
    );
    stray_own(state, i) | stray_held(state, i) | holders | seniors
}

// Strangers in i's sessions, and active roles that their users don't hold. Most issuers have no session open, and then sixteen are looked at at once.
#[tactic(auto, using(crate::proofs::Sessions::all_closed), unfolding(bits::specs::Gather::gather, crate::specs::Stray::issuer_doubt))]
fn doubt_of(state: &State, i: usize) -> u16
    requires { i < 16 }
    ensures { result ≡ issuer_doubt state.now i }
{
    if sessions::awake(state, i) == 0 {
        return 0;
    }
    let mut found = 0;
    for s in 0..16 {
        found |= sessions::stranger(state, i, s) | sessions::lesser(state, i, s);
    }
    found
}

// What a survey of all issuers' words finds: stray bits, and what is doubtful in sessions.
#[tactic(auto, unfolding(bits::specs::Gather::gather))]
fn survey(state: &State) -> (u16, u16)
    ensures { Surveyed state.now result.0 result.1 }
{
    let mut stray = 0;
    let mut doubt = 0;
    for i in 0..16 {
        stray |= stray_of(state, i);
        doubt |= doubt_of(state, i);
    }
    (stray, doubt)
}

// What the law test tells: whether the words are a lawful state, and whether no session of it is to be looked at more closely,
// since each user holds its active roles itself.
#[derive(Clone, Copy)]
pub struct Law {
    pub lawful: bool,
    pub plain: bool,
}

// What stands has what it needs, no role reaches itself by one or more attachments, and each active role is reached by one
// that the session's user holds. Where it holds them all, nothing is walked for that.
pub fn test(state: &State) -> Law
    ensures { (result.lawful ≡ lawful_words state.now) × ((result.plain ≡ true) ↔ Plain state.now) }
{
    let (stray, doubt) = survey(state);
    let plain = doubt == 0;
    Law {
        lawful: stray == 0
            && hierarchy::acyclic(layout::links(state))
            && (plain || sessions::in_order(state)),
        plain,
    }
}
