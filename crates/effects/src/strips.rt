// The bits that go where a fact is cut, but for sessions: of a word, of words side by side, and of words sixteen apart.
#![tactic(auto)]

ghost use Rattle.std.specs.Prelude.{◌≡◌, ◌+◌, ◌-◌, ◌*◌, ◌^◌, ◌<◌, ◌≤◌};
ghost use Rattle.mtas.specs.Fact.{enrolled, trusts, user, role, permission, public};
ghost use Rattle.mtas.specs.Layout.{state_length};
ghost use Rattle.facts.specs.Table.{fact_of};
ghost use Rattle.effects.specs.Strips.{word, run, column, strips, StripMasked, AllLie, Kept};

use facts::Fact;
use layout::State;

// Every bit but n; none where n is above 15. With `checked_shl` in place of the test the proof didn't close.
pub fn all_but(n: u8) -> u16
    ensures { result ≡ 65535 - 2 ^ n }
{
    if n < 16 { !(1 << n) } else { 0 }
}

// The word at a place keeps these bits. So do words side by side, and words sixteen apart: two names for steps of 1 and 16,
// by which the rows below read more plainly than by a number in each.
fn word(state: &mut State, at: usize, keep: u16)
    requires { at < state_length }
    ensures { StripMasked (word at keep) state.old state.new }
{
    state[at] &= keep;
}

// Not inlined, since the compiler would make a call of memset of a run that keeps no bit, and the library's header says that it calls none.
#[inline(never)]
fn run(state: &mut State, from: usize, count: usize, keep: u16)
    requires { from + count ≤ state_length }
    ensures { StripMasked (run from count keep) state.old state.new }
{
    bits::mask_every::<1>(state, from, count, keep);
}

fn column(state: &mut State, from: usize, count: usize, keep: u16)
    requires { from + 16 * count ≤ state_length + 15 }
    ensures { StripMasked (column from count keep) state.old state.new }
{
    bits::mask_every::<16>(state, from, count, keep);
}

// An issuer: its bit in words 0 to 16, its own words, and its roles in the words of others.
fn clear_issuer(state: &mut State, i: u8)
    requires { AllLie (strips (enrolled i)) }
    ensures { Kept (strips (enrolled i)) state.old state.new }
{
    let others = all_but(i);
    word(state, 0, others);
    run(state, layout::trusted(0), 16, others);
    word(state, layout::trusted(i), 0);
    word(state, layout::users(i), 0);
    word(state, layout::roles(i), 0);
    word(state, layout::permissions(i), 0);
    run(state, layout::held(i, 0), 16, 0);
    run(state, layout::holders(i, 0, 0), 256, 0);
    column(state, layout::holders(0, 0, i), 256, 0);
    run(state, layout::seniors(i, 0, 0), 256, 0);
    column(state, layout::seniors(0, 0, i), 256, 0);
    word(state, layout::public_roles(i), 0);
}

fn clear_trust(state: &mut State, i: u8, j: u8)
    requires { AllLie (strips (trusts i j)) }
    ensures { Kept (strips (trusts i j)) state.old state.new }
{
    word(state, layout::trusted(i), all_but(j));
    column(state, layout::holders(j, 0, i), 16, 0);
    column(state, layout::seniors(j, 0, i), 16, 0);
}

fn clear_user(state: &mut State, i: u8, u: u8)
    requires { AllLie (strips (user i u)) }
    ensures { Kept (strips (user i u)) state.old state.new }
{
    word(state, layout::users(i), all_but(u));
    word(state, layout::held(i, u as u16), 0);
}

fn clear_role(state: &mut State, i: u8, r: u8)
    requires { AllLie (strips (role i r)) }
    ensures { Kept (strips (role i r)) state.old state.new }
{
    let others = all_but(r);
    word(state, layout::roles(i), others);
    run(state, layout::held(i, 0), 16, others);
    column(state, layout::holders(0, 0, i), 256, others);
    column(state, layout::seniors(0, 0, i), 256, others);
    run(state, layout::seniors(i, r, 0), 16, 0);
    word(state, layout::public_roles(i), others);
}

fn clear_permission(state: &mut State, i: u8, p: u8)
    requires { AllLie (strips (permission i p)) }
    ensures { Kept (strips (permission i p)) state.old state.new }
{
    word(state, layout::permissions(i), all_but(p));
    run(state, layout::holders(i, p, 0), 16, 0);
}

// A public role: its bit, and in two columns each the grants and attachments of the issuers before i and of those behind it.
fn clear_public(state: &mut State, i: u8, r: u8)
    requires { AllLie (strips (public i r)) }
    ensures { Kept (strips (public i r)) state.old state.new }
{
    let rest = all_but(r);
    let before = 16 * (i as usize);
    let behind = 240usize.saturating_sub(before);
    word(state, layout::public_roles(i), rest);
    column(state, layout::holders(0, 0, i), before, rest);
    column(state, layout::holders(i, 15, i) + 16, behind, rest);
    column(state, layout::seniors(0, 0, i), before, rest);
    column(state, layout::seniors(i, 15, i) + 16, behind, rest);
}

// A fact and all that needs it.
pub fn clear(state: &mut State, fact: Fact)
    requires { AllLie (strips (fact_of fact)) }
    ensures { Kept (strips (fact_of fact)) state.old state.new }
{
    match fact {
        Fact::Enrolled(i) => clear_issuer(state, i),
        Fact::Trusts(i, j) => clear_trust(state, i, j),
        Fact::User(i, u) => clear_user(state, i, u),
        Fact::Role(i, r) => clear_role(state, i, r),
        Fact::Permission(i, p) => clear_permission(state, i, p),
        Fact::Public(i, r) => clear_public(state, i, r),
        Fact::Holds(i, u, r) => word(state, layout::held(i, u), all_but(r)),
        Fact::Granted(j, p, i, r) => word(state, layout::holders(j, p, i), all_but(r)),
        Fact::Attached(j, q, i, r) => word(state, layout::seniors(j, q, i), all_but(r)),
        Fact::Opened(..) | Fact::Active(..) => {}
    }
}
