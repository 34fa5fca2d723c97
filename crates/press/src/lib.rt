// The presses on the floor: an action on a press goes ahead where the desk, called by the press's owner, says yes.
#![tactic(auto)]

ghost use Rattle.std.specs.Prelude.{◌≡◌};
ghost use Rattle.mtas.specs.Monitor.{monitor};
ghost use Rattle.press.specs.Acted.{some_above, misfit, question, turned_away, ends_in, act};
ghost use Rattle.press.specs.Contract.{action_number, number_of, error_of};

use record::Slots;
use stage::{Action, Stage};

mod stage;

const PRESSES: usize = 32;

// Kind 21, a number as the record has it: may a session use the caller's own permission?
const CHECK_ACCESS: u16 = 21;

// Why an action on a press doesn't go ahead, with the card's numbers.
#[derive(Clone, Copy, Debug, PartialEq, Eq)]
pub enum Error {
    Misfit = 17,
    TurnedAway = 18,
    WrongStage = 19,
}

impl From<Error> for u16 {
    ghost from_gives = { λ e n. n ≡ number_of e };

    fn from(e: Error) -> u16 {
        e as u16
    }
}

// Whether some byte is above a limit. Each is looked at, since a loop that stops early branches at each of them.
fn some_above(limit: u8, bytes: &[u8]) -> bool
    ensures { result ≡ some_above limit bytes.now }
{
    bytes.iter().fold(false, |found, &b| found | (limit < b))
}

// Error 17, but for an action that isn't one: lists that aren't the owners and stages of 32 presses, a press that isn't there.
#[tactic(auto, unfolding(crate::specs::Acted::misfit))]
fn misfit(owners: &[u8], stages: &[u8], press: u8) -> bool
    ensures { (a : Action) → result ≡ misfit owners.now stages.now press (action_number a) }
{
    owners.len() != PRESSES
        || stages.len() != PRESSES
        || press > 31
        || some_above(15, owners)
        || some_above(Stage::Held as u8, stages)
}

// Whether the desk turns the owner's question away. It leaves every word of the state.
fn turned_away(state: &mut [u16], owner: u8, action: u8, issuer: u8, session: u8) -> bool
    ensures value { result ≡ turned_away (monitor state.old (question owner action issuer session)).answer }
    ensures state_unchanged { state.new ≡ state.old }
{
    let slots = Slots {
        x: action,
        y: issuer,
        z: session,
    };
    let made = record::record_of(CHECK_ACCESS, owner, 3, slots);
    let outcome = monitor::call(state, made.as_slice());
    !matches!(outcome, Ok(Some(_)))
}

// An action on a press for the session issuer/session: on a state of any words and any length, with lists of any bytes and any length.
// The lists stay bytes, and the numbers numbers, since C lends and passes them.
// On an error nothing has changed. The state never changes.
pub fn act(
    state: &mut [u16],
    owners: &[u8],
    stages: &mut [u8],
    press: u8,
    action: u8,
    issuer: u8,
    session: u8,
) -> Result<(), Error>
    ensures { act state.old owners.now stages.old press action issuer session ≡ ends_in (error_of result) stages.new state.new }
{
    let wanted = Action::try_from(action)?;
    if misfit(owners, stages, press) {
        return Err(Error::Misfit);
    }
    let at = press as usize;
    let stage = Stage::try_from(stages[at])?;
    if turned_away(state, owners[at], action, issuer, session) {
        return Err(Error::TurnedAway);
    }
    let next = stage::next_stage(wanted, stage).ok_or(Error::WrongStage)?;
    stages[at] = u8::from(next);
    Ok(())
}
