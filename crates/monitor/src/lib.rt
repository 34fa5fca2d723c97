// The reference monitor (document 01's desk): starting, and a call record played on the lent state.
#![tactic(auto)]

ghost use Rattle.std.specs.Prelude.{◌≡◌, ◌<◌};
ghost use Rattle.mtas.specs.Layout.{state_length, cell, word_at};
ghost use Rattle.mtas.specs.Monitor.{initial, start, monitor};
ghost use Rattle.monitor.specs.Contract.{answer_of, numbers, Gives};

use facts::Lawful;
use hierarchy::Role;
use layout::STATE_LENGTH;
use record::Decoded;
use rule::Refusal;

// How a call ends: refused, or accepted with the role that gives a yes, or none.
pub type Outcome = Result<Option<Role>, Refusal>;

// The outcome in document 01's numbers: a refusal (0 for accepted), a verdict, and the role that gave a yes: its issuer and its number,
// 255 and 255 without a yes.
#[derive(Clone, Copy, Debug, PartialEq, Eq)]
pub struct Answer {
    pub refusal: u16,
    pub verdict: u16,
    pub issuer: u8,
    pub role: u8,
}

impl From<Outcome> for Answer {
    ghost from_gives = { λ o a. numbers a ≡ answer_of o };

    fn from(outcome: Outcome) -> Answer {
        let (refusal, found) = match outcome {
            Err(refusal) => (refusal.into(), None),
            Ok(role) => (0, role),
        };
        let role = found.unwrap_or(Role {
            issuer: 255,
            number: 255,
        });
        Answer {
            refusal,
            verdict: found.is_some() as u16,
            issuer: role.issuer,
            role: role.number,
        }
    }
}

// The word at a place, as starting writes it. What lies outside the sessions is asked first: as one condition of three tests, starting
// took a quarter longer.
fn initial(k: usize) -> u16
    requires { k < state_length }
    ensures { result ≡ initial (cell (word_at k)) }
{
    if k < layout::SESSIONS_AT || k >= layout::PUBLIC_AT {
        0
    } else if (k - layout::SESSIONS_AT) % 2 == 0 {
        layout::NOBODY
    } else {
        0
    }
}

// Starting: a state of any words and any length.
pub fn start(state: &mut [u16]) -> Outcome
    ensures { Gives (start state.old) (answer_of result) state.new }
{
    let Some(state) = state.as_mut_array::<STATE_LENGTH>() else {
        return Err(Refusal::StateLength);
    };
    // Word by word, by its number: of `fill` the compiler makes a call of memset, and the library's header says that it calls none.
    for k in 0..STATE_LENGTH {
        state[k] = initial(k);
    }
    Ok(None)
}

// A record of any bytes, played on a state of any words and any length.
pub fn call(state: &mut [u16], record: &[u8]) -> Outcome
    ensures { Gives (monitor state.old «record».now) (answer_of result) state.new }
{
    let Some(state) = state.as_mut_array::<STATE_LENGTH>() else {
        return Err(Refusal::StateLength);
    };
    let law = law::test(state);
    if !law.lawful {
        return Err(Refusal::Unlawful);
    }
    let decoded = record::decode(record);
    let Decoded::Request(request) = decoded else {
        return match decoded {
            Decoded::SignOfLife => Ok(None),
            _ => Err(Refusal::Undecodable),
        };
    };
    let lawful = Lawful { words: &*state };
    answers::refusal(lawful, request)?;
    let found = answers::looked_up(lawful, request);
    effects::change(state, request, law.plain);
    Ok(found)
}
