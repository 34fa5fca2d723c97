// What a call is answered on a lawful state: its refusal (document 01, 'When a call is turned down') and what it looks up.
#![tactic(auto)]

ghost use Rattle.std.specs.Prelude.{◌≡◌};
ghost use Rattle.mtas.specs.Call.{arguments};
ghost use Rattle.mtas.specs.Rule.{applies, cause, front};
ghost use Rattle.mtas.specs.Answer.{first_cause, outcome, found};
ghost use Rattle.mtas.specs.Layout.{view};
ghost use Rattle.record.specs.Decoded.{call_of};
ghost use Rattle.rule.specs.Refusal.{number_of};
ghost use Rattle.rule.specs.Table.{guard_of, guards_of, whose_of, row_of};
ghost use Rattle.answers.specs.Refusal.{outcome_of, is_known};
ghost use Rattle.hierarchy.specs.Lowest.{found_of};

mod walks;

use facts::{Fact, Lawful};
use hierarchy::Role;
use record::Request;
use rule::{Effect, Guard, Refusal, Row, Whose};

fn applies(state: Lawful, guard: Guard) -> bool
    ensures { result ≡ applies (view state.entry.words.now) (guard_of guard) }
{
    match guard {
        Guard::Absent(_, f) => !facts::stands(state.words, f),
        Guard::Present(_, f) => facts::stands(state.words, f),
        Guard::Wrong(_, b) => b,
        Guard::Reached(_, c, q, i, r) => walks::reaches(state, c, q, i, r),
        Guard::Unauthorized(_, i, u, r) => !sessions::is_authorized(state.words, i, u, r),
    }
}

fn cause(guard: Guard) -> Refusal
    ensures { number_of result ≡ cause (guard_of guard) }
{
    match guard {
        Guard::Absent(e, ..)
        | Guard::Present(e, ..)
        | Guard::Wrong(e, ..)
        | Guard::Reached(e, ..)
        | Guard::Unauthorized(e, ..) => e,
    }
}

// The cause of a row's first guard that applies.
fn first_cause(state: Lawful, row: Row) -> Result<(), Refusal>
    ensures { outcome_of result ≡ first_cause (view state.entry.words.now) (guards_of row) }
{
    for place in row {
        if let Some(guard) = place
            && applies(state, guard)
        {
            return Err(cause(guard));
        }
    }
    Ok(())
}

// Whether the calling issuer is enrolled; the operator is no issuer.
fn is_known(state: Lawful, whose: Whose, caller: u8) -> bool
    ensures { result ≡ is_known (view state.entry.words.now) (whose_of whose) caller }
{
    match whose {
        Whose::Operator => true,
        Whose::Issuer => facts::stands(state.words, Fact::Enrolled(caller)),
    }
}

// Refusals 4 to 6, with which every row begins: whose call it is, enrolment, arguments above 15.
fn front(state: Lawful, request: Request) -> Result<(), Refusal>
    ensures { outcome_of result ≡ first_cause (view state.entry.words.now)
        (front (row_of (view state.entry.words.now) request).whose request.caller (arguments (call_of request.call))) }
{
    let whose = rule::its_caller(request.call);
    if !rule::may_call(whose, request.caller) {
        return Err(Refusal::NotItsCaller);
    }
    if !is_known(state, whose, request.caller) {
        return Err(Refusal::NotEnrolled);
    }
    let given = record::arguments(request.call);
    if facts::above_15(given.x, given.y, given.z as u16, 0) {
        return Err(Refusal::Above15);
    }
    Ok(())
}

// The refusal of any call, or its acceptance.
pub fn refusal(state: Lawful, request: Request) -> Result<(), Refusal>
    ensures { outcome_of result ≡ outcome (view state.entry.words.now) request.caller (call_of request.call) }
{
    front(state, request)?;
    first_cause(state, rule::guards(state, request))
}

// What an accepted call looks up: a role only for kind 21.
pub fn looked_up(state: Lawful, request: Request) -> Option<Role>
    ensures { found_of result ≡ found (view state.entry.words.now) request.caller
        (row_of (view state.entry.words.now) request).effect }
{
    match rule::effect_on(state, request) {
        Effect::Enrols(_) | Effect::Puts(_) | Effect::Cuts(_) => None,
        Effect::Decides(p, i, s) => walks::lookup(state, request.caller, p, i, s),
    }
}
