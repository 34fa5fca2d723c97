// The table of the calls as data (document 01, 'When a call is turned down'): the causes of refusal in order, and the effect.
#![tactic(auto)]

ghost use Rattle.std.specs.Prelude.{◌≡◌, ℕ, ◌≤◌, [], ◌∷◌, length, map, slice_get};
ghost use Rattle.mtas.specs.Fact.{role};
ghost use Rattle.mtas.specs.Needs.{exposed};
ghost use Rattle.mtas.specs.Rule.{absent, link_causes, may_call, rule};
ghost use Rattle.mtas.specs.Layout.{view};
ghost use Rattle.record.specs.Decoded.{call_of};
ghost use Rattle.facts.specs.Table.{fact_of};
ghost use Rattle.rule.specs.Refusal.{number_of};
ghost use Rattle.rule.specs.Table.{guard_of, guards_of, whose_of, effect_of, row_of};

use Guard::{Absent, Present, Reached, Unauthorized, Wrong};
use Refusal::{
    Circle, Enrolment, ItsOwnIssuer, Missing, NotPublic, NotReached, NothingToChange, Untrusted,
};
use facts::{Fact, Lawful, user_of};
use record::{Call, Request};
use std::array;

// Why a call is turned down, by document 01's numbers; 14 is document 02's.
#[derive(Clone, Copy, Debug, PartialEq, Eq)]
pub enum Refusal {
    // The state is not of a state's length.
    StateLength = 1,
    // The state is not lawful.
    Unlawful,
    // The record can't be decoded.
    Undecodable,
    // It is not this caller's to call.
    NotItsCaller,
    // The calling issuer is not enrolled.
    NotEnrolled,
    // An argument is above 15.
    Above15,
    // The named issuer is enrolled already, or is not.
    Enrolment,
    // The caller names itself.
    ItsOwnIssuer,
    // The named issuer doesn't trust the caller.
    Untrusted,
    // A named user, role or permission is absent, or the session is closed.
    Missing,
    // No role that the user holds reaches the role.
    NotReached,
    // It is already there, open or active, or is not there.
    NothingToChange,
    // The junior reaches the senior already, or is it.
    Circle,
    // Across estates, the role or the senior is not public.
    NotPublic,
}

impl From<Refusal> for u16 {
    ghost from_gives = { λ e n. n ≡ number_of e };

    fn from(refusal: Refusal) -> u16 {
        refusal as u16
    }
}

// A cause of refusal. Each form has its refusal first, as the model's guards have.
#[derive(Clone, Copy)]
pub enum Guard {
    Absent(Refusal, Fact),
    Present(Refusal, Fact),
    Wrong(Refusal, bool),
    Reached(Refusal, u8, u8, u8, u8),
    // No role that i@u holds reaches i#r.
    Unauthorized(Refusal, u8, u16, u8),
}

// An effect: an issuer is enrolled, a fact is put or cut with all that needs it, or a question is decided.
#[derive(Clone, Copy)]
pub enum Effect {
    Enrols(u8),
    Puts(Fact),
    Cuts(Fact),
    Decides(u8, u8, u8),
}

// What exposes i#r to c: of c's own roles that it is there, of another's that it is public.
#[tactic(auto, unfolding(mtas::specs::Needs::exposed))]
fn exposing(c: u8, i: u8, r: u8) -> Fact
    ensures { fact_of result ≡ exposed c i r }
{
    if c == i {
        Fact::Role(i, r)
    } else {
        Fact::Public(i, r)
    }
}

// A row's causes in order. Without a heap each row has the longest one's length.
pub type Row = [Option<Guard>; 7];

fn row(causes: &[Guard]) -> Row
    requires { length causes.now ≤ 7 }
    ensures { guards_of result ≡ map guard_of causes.now }
{
    array::from_fn(
        |k|
            ensures { result ≡ slice_get causes.entry.now k }
        { causes.get(k).copied() },
    )
}

// What kinds 13 to 16 from c try, which link a thing of the caller's own to i#r; the last one or two are the row's.
fn link(c: u8, i: u8, r: u8, own: Fact, x: Guard, y: Option<Guard>) -> Row
    ensures { guards_of result ≡ link_causes c i r (fact_of own) (guards_of (Some x ∷ y ∷ [])) }
{
    [
        Some(Absent(Enrolment, Fact::Enrolled(i))),
        Some(Absent(Untrusted, Fact::Trusts(i, c))),
        Some(Absent(Missing, own)),
        Some(Absent(Missing, Fact::Role(i, r))),
        Some(Absent(NotPublic, exposing(c, i, r))),
        Some(x),
        y,
    ]
}

// What kinds 22 and 23 from c try of its own role; the last is the row's.
fn own_role(c: u8, r: u8, x: Guard) -> Row
    ensures { guards_of result ≡ absent 10 (role c r) ∷ guard_of x ∷ [] }
{
    row(&[Absent(Missing, Fact::Role(c, r)), x])
}

// The causes of a call's own row.
pub fn guards(state: Lawful, request: Request) -> Row
    ensures { guards_of result ≡ (row_of (view state.entry.words.now) request).causes }
{
    let c = request.caller;
    match request.call {
        Call::AddIssuer(i) => row(&[Present(Enrolment, Fact::Enrolled(i))]),
        Call::RemoveIssuer(i) => row(&[Absent(Enrolment, Fact::Enrolled(i))]),
        Call::AssignTrust(j) => row(&[
            Absent(Enrolment, Fact::Enrolled(j)),
            Wrong(ItsOwnIssuer, c == j),
            Present(NothingToChange, Fact::Trusts(c, j)),
        ]),
        Call::RevokeTrust(j) => row(&[
            Absent(Enrolment, Fact::Enrolled(j)),
            Wrong(ItsOwnIssuer, c == j),
            Absent(NothingToChange, Fact::Trusts(c, j)),
        ]),
        Call::AddUser(u) => row(&[Present(NothingToChange, Fact::User(c, u))]),
        Call::RemoveUser(u) => row(&[Absent(Missing, Fact::User(c, u))]),
        Call::AddRole(r) => row(&[Present(NothingToChange, Fact::Role(c, r))]),
        Call::RemoveRole(r) => row(&[Absent(Missing, Fact::Role(c, r))]),
        Call::AddPerm(p) => row(&[Present(NothingToChange, Fact::Permission(c, p))]),
        Call::RemovePerm(p) => row(&[Absent(Missing, Fact::Permission(c, p))]),
        Call::AssignUser(u, r) => row(&[
            Absent(Missing, Fact::User(c, u)),
            Absent(Missing, Fact::Role(c, r)),
            Present(NothingToChange, Fact::Holds(c, u as u16, r)),
        ]),
        Call::RevokeUser(u, r) => row(&[
            Absent(Missing, Fact::User(c, u)),
            Absent(Missing, Fact::Role(c, r)),
            Absent(NothingToChange, Fact::Holds(c, u as u16, r)),
        ]),
        Call::AssignPerm(p, i, r) => {
            let granted = Present(NothingToChange, Fact::Granted(c, p, i, r));
            link(c, i, r, Fact::Permission(c, p), granted, None)
        }
        Call::RevokePerm(p, i, r) => {
            let not_granted = Absent(NothingToChange, Fact::Granted(c, p, i, r));
            link(c, i, r, Fact::Permission(c, p), not_granted, None)
        }
        Call::AssignRH(q, i, r) => {
            let attached = Present(NothingToChange, Fact::Attached(c, q, i, r));
            let circle = Reached(Circle, c, q, i, r);
            link(c, i, r, Fact::Role(c, q), attached, Some(circle))
        }
        Call::RevokeRH(q, i, r) => {
            let not_attached = Absent(NothingToChange, Fact::Attached(c, q, i, r));
            link(c, i, r, Fact::Role(c, q), not_attached, None)
        }
        Call::CreateSession(s, u) => row(&[
            Absent(Missing, Fact::User(c, u)),
            Present(NothingToChange, Fact::Opened(c, s, user_of(state, c, s))),
        ]),
        Call::DeleteSession(s) => row(&[Absent(Missing, Fact::Opened(c, s, user_of(state, c, s)))]),
        Call::AddActiveRole(s, r) => {
            let user = user_of(state, c, s);
            row(&[
                Absent(Missing, Fact::Role(c, r)),
                Absent(Missing, Fact::Opened(c, s, user)),
                Unauthorized(NotReached, c, user, r),
                Present(NothingToChange, Fact::Active(c, s, user, r)),
            ])
        }
        Call::DropActiveRole(s, r) => {
            let user = user_of(state, c, s);
            row(&[
                Absent(Missing, Fact::Role(c, r)),
                Absent(Missing, Fact::Opened(c, s, user)),
                Absent(NothingToChange, Fact::Active(c, s, user, r)),
            ])
        }
        Call::CheckAccess(p, _, _) => row(&[Absent(Missing, Fact::Permission(c, p))]),
        Call::PublishRole(r) => own_role(c, r, Present(NothingToChange, Fact::Public(c, r))),
        Call::UnpublishRole(r) => own_role(c, r, Absent(NothingToChange, Fact::Public(c, r))),
    }
}

// Whose call it is.
#[derive(Clone, Copy, Debug, PartialEq, Eq)]
pub enum Whose {
    Operator,
    Issuer,
}

// Kinds 1 and 2 are the operator's.
pub fn its_caller(call: Call) -> Whose
    ensures { (users : ℕ → ℕ) (c : ℕ) → whose_of result ≡ (rule users c (call_of call)).whose }
{
    match call {
        Call::AddIssuer(_) | Call::RemoveIssuer(_) => Whose::Operator,
        _ => Whose::Issuer,
    }
}

// The operator is caller 16, an issuer one below.
pub fn may_call(whose: Whose, c: u8) -> bool
    ensures { result ≡ may_call (whose_of whose) c }
{
    match whose {
        Whose::Operator => c == 16,
        Whose::Issuer => c < 16,
    }
}

// What a call does where it is accepted.
pub fn effect_on(state: Lawful, request: Request) -> Effect
    ensures { effect_of result ≡ (row_of (view state.entry.words.now) request).effect }
{
    let c = request.caller;
    match request.call {
        Call::AddIssuer(i) => Effect::Enrols(i),
        Call::RemoveIssuer(i) => Effect::Cuts(Fact::Enrolled(i)),
        Call::AssignTrust(j) => Effect::Puts(Fact::Trusts(c, j)),
        Call::RevokeTrust(j) => Effect::Cuts(Fact::Trusts(c, j)),
        Call::AddUser(u) => Effect::Puts(Fact::User(c, u)),
        Call::RemoveUser(u) => Effect::Cuts(Fact::User(c, u)),
        Call::AddRole(r) => Effect::Puts(Fact::Role(c, r)),
        Call::RemoveRole(r) => Effect::Cuts(Fact::Role(c, r)),
        Call::AddPerm(p) => Effect::Puts(Fact::Permission(c, p)),
        Call::RemovePerm(p) => Effect::Cuts(Fact::Permission(c, p)),
        Call::AssignUser(u, r) => Effect::Puts(Fact::Holds(c, u as u16, r)),
        Call::RevokeUser(u, r) => Effect::Cuts(Fact::Holds(c, u as u16, r)),
        Call::AssignPerm(p, i, r) => Effect::Puts(Fact::Granted(c, p, i, r)),
        Call::RevokePerm(p, i, r) => Effect::Cuts(Fact::Granted(c, p, i, r)),
        Call::AssignRH(q, i, r) => Effect::Puts(Fact::Attached(c, q, i, r)),
        Call::RevokeRH(q, i, r) => Effect::Cuts(Fact::Attached(c, q, i, r)),
        Call::CreateSession(s, u) => Effect::Puts(Fact::Opened(c, s, u as u16)),
        Call::DeleteSession(s) => Effect::Cuts(Fact::Opened(c, s, user_of(state, c, s))),
        Call::AddActiveRole(s, r) => Effect::Puts(Fact::Active(c, s, user_of(state, c, s), r)),
        Call::DropActiveRole(s, r) => Effect::Cuts(Fact::Active(c, s, user_of(state, c, s), r)),
        Call::CheckAccess(p, i, s) => Effect::Decides(p, i, s),
        Call::PublishRole(r) => Effect::Puts(Fact::Public(c, r)),
        Call::UnpublishRole(r) => Effect::Cuts(Fact::Public(c, r)),
    }
}
